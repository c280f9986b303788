// What a script has set so far, and what came of the last entry.
use crate::board::LONGEST;
use answers::Answer;
use outbox::marks::Marks;

// The answer, how many bytes were held before, whether a byte of table, ring or list or a mark has changed, and whether the first record's 80 bytes
// are what they were.
#[derive(Clone, Copy)]
pub struct Last {
    pub answer: Answer,
    pub before: usize,
    pub changed: bool,
    pub intact: bool,
}

#[derive(Clone, Copy)]
pub struct Run {
    pub marks: Marks,
    // the length of the ring
    pub ring: usize,
    // of the next entries: the token's first letter, and whether a replace names it twice
    pub name: u8,
    pub twice: bool,
    pub price: u32,
    pub time: u32,
    pub minimum: u32,
    pub cross: u8,
    // the first letter of the firm; a space for the blank one, which the purge port's entries have as ABCD
    pub firm: u8,
    // two places whose bytes are spoiled
    pub spoiled: Option<usize>,
    pub also: Option<usize>,
    // in whole seconds
    pub stamp: u32,
    // how many bytes are cut off at the end
    pub cut: usize,
    // whether what is held stays held
    pub keeps: bool,
    // the place of a byte of the table
    pub byte: usize,
    // whether the status call is asked at the end
    pub asks: bool,
    pub last: Last,
}

pub(crate) fn begun() -> Run {
    Run {
        marks: Marks { at: 0, held: 0 },
        ring: LONGEST,
        name: b'A',
        twice: false,
        price: 10_000,
        time: 99_999,
        minimum: 0,
        cross: b'N',
        firm: b' ',
        spoiled: None,
        also: None,
        stamp: 34_200,
        cut: 0,
        keeps: false,
        byte: 0,
        asks: false,
        last: Last {
            answer: Ok(()),
            before: 0,
            changed: false,
            intact: false,
        },
    }
}

// What a letter of a script sets; `None` for one that is an entry.
pub(crate) fn set(run: Run, letter: u8, n: u32) -> Option<Run> {
    let run = match letter {
        b'A' | b'B' | b'D' | b'!' => Run {
            name: letter,
            ..run
        },
        b'=' => Run { twice: true, ..run },
        b'$' => Run { price: n, ..run },
        b't' => Run { time: n, ..run },
        b'm' => Run { minimum: n, ..run },
        b'C' => Run { cross: b'C', ..run },
        b'W' => Run {
            firm: (64 + n % 26) as u8,
            ..run
        },
        b'?' => Run {
            also: run.spoiled,
            spoiled: Some(n as usize),
            ..run
        },
        b'@' => Run { stamp: n, ..run },
        b'<' => Run {
            cut: n as usize,
            ..run
        },
        b'k' => Run { keeps: true, ..run },
        b'R' => Run {
            ring: n as usize,
            ..run
        },
        b'b' => Run {
            byte: n as usize,
            ..run
        },
        b'#' => Run { asks: true, ..run },
        _ => return None,
    };
    Some(run)
}
