// A script as it is played through the host: words of a letter and a number, each with a space behind it.
//
// A B D !   the next entries name this token (! is in no legal one); A before the first
// =         from here on a replace names its token twice; before, it brings B
// C         the next orders are for the closing cross
// $ t m     the next prices, times in force and minimums; 10,000, 99,999 and 0 before the first
// W         the next entries are for the firm so numbered; before, the firm is blank, and in w d n ABCD
// ?         the byte at this place of the next entries is spoiled, beside the one at the place named before
// @         the next stamps, in seconds; 34,200 before the first
// <         so many bytes are cut off the next entries
// R         the ring has so many bytes
// F V       a fresh table with so many firms; one with this threshold
// b v N     the place of a byte of the table; the byte there has this value; the next reference is the one past the last
// o i       the table is taken back to its old form; that is converted into a buffer of so many bytes, which is the table if it is done
// L J       the list has another stock in ABC's place; its state is damaged
// k g       what is held stays held; what is held is read and released
// #         at the end the status call is asked too
//
// Every other letter is an entry of that kind with so many shares (E: the day ends; h: ABC is halted; y: it trades again; w1 and w2 are about ABC
// and XYZ, w about all). Unless k was said the ring is emptied before it.
use crate::board::Board;
use crate::entries::{entry, size};
use crate::house::open;
use crate::older::{converted, take_back};
use crate::run::{Last, Run, begun, set};
use crate::text::{part, put};
use answers::Answer;
use host::step::step;
use outbox::marks::Marks;
use outbox::read::read;
use outbox::release::release;

// The reference that the next one is at when none is left: 10^18.
const PAST_THE_LAST: u64 = 1_000_000_000_000_000_000;

// The run at the read place is read and given up. A message that wraps at the ring's end is two runs.
fn give_up(ring: &[u8], marks: &mut Marks) {
    let _ = release(ring.len(), marks, read(ring, *marks).len());
}

fn emptied(board: &Board, run: Run) -> Run {
    let ring = part(&board.ring, 0, run.ring);
    let mut marks = run.marks;
    give_up(ring, &mut marks);
    give_up(ring, &mut marks);
    Run { marks, ..run }
}

// What came of an entry, from the board and the marks before and after it.
fn last(answer: Answer, was: Marks, marks: Marks, before: Board, after: Board) -> Last {
    Last {
        answer,
        before: was.held,
        changed: before != after || marks != was,
        intact: part(&before.table, 64, 144) == part(&after.table, 64, 144),
    }
}

fn offered(board: &mut Board, run: Run, entry: &[u8]) -> Run {
    let was = run.marks;
    let before = *board;
    let ring = &mut board.ring[..];
    let n = run.ring.min(ring.len());
    let mut marks = was;
    let answer = step(
        &mut board.table,
        &mut ring[..n],
        &mut marks,
        &mut board.stocks,
        entry,
    );
    Run {
        marks,
        last: last(answer, was, marks, before, *board),
        ..run
    }
}

fn played(board: &mut Board, before: Run, kind: u8, n: u32) -> Run {
    let run = if before.keeps {
        before
    } else {
        emptied(board, before)
    };
    let bytes = entry(run, kind, n);
    offered(board, run, part(&bytes, 0, size(run, kind)))
}

// What a script does to the table and the list beside its entries; whether it is that.
fn prepared(board: &mut Board, at: usize, letter: u8, n: u32) -> bool {
    match letter {
        b'L' => put(&mut board.stocks, 0, b"ABD"),
        b'J' => put(&mut board.stocks, 8, b"X"),
        b'v' => put(&mut board.table, at, &[(n % 256) as u8]),
        b'N' => put(&mut board.table, 16, &PAST_THE_LAST.to_be_bytes()),
        b'o' => take_back(&mut board.table),
        b'F' => open(&mut board.table, 1_000_000, n),
        b'V' => open(&mut board.table, n, 1),
        _ => return false,
    }
    true
}

fn acted(board: &mut Board, run: Run, letter: u8, n: u32) -> Run {
    if prepared(board, run.byte, letter, n) {
        return run;
    }
    if let Some(set) = set(run, letter, n) {
        return set;
    }
    match letter {
        b'g' => emptied(board, run),
        // An answer of the converter stands where an entry's would.
        b'i' => Run {
            last: converted(&mut board.table, n as usize),
            ..emptied(board, run)
        },
        _ => played(board, run, letter, n),
    }
}

pub(crate) fn play(board: &mut Board, script: &str) -> Run {
    let mut run = begun();
    for word in script.split_ascii_whitespace() {
        let letter = word.bytes().next().unwrap_or(b' ');
        let n = word.get(1..).unwrap_or("").parse().unwrap_or(0);
        run = acted(board, run, letter, n);
    }
    run
}
