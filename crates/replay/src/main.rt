// Plays the tape on standard input through a fresh host and prints what each entry came to.
//
// Without a word it is the paper's program: a ring of 4,096 bytes that is emptied after each entry, 800 records, and one stock, ABC, which trades. By `ring N`, `release K` and
// `records N` it has another ring, a reader that takes K bytes between two offers, and another table. An entry that is blocked prints with answer 9
// and is offered again under its number until it is not. By `outbox`, as the first word, the ring is drawn under each line as the offer left it, and
// at the end once for each time that the reader takes from it.
//
// Each line is written before the next read waits. Where standard output is full or closed, or nobody reads it any longer, the program says so on
// standard error and stops.
#![tactic(auto)]

mod printing;

ghost use Rattle.std.specs.Prelude.{◌-◌, ◌≤◌};
ghost use Rattle.words.specs.Words.{Allowed};

use crate::printing::{drain, draw, print, taken_from};
use answers::{Answer, Refusal, number};
use feed::pieces::Pieces;
use feed::{Feed, again, begin, next, piece};
use host::step::step;
use listing::lines::{FIRST_LINE, last_line, line, type_shown};
use outbox::marks::{LONGEST_RING, Marks};
use outbox::read::read;
use outbox::release::release;
use std::io;
use std::io::Stdout;
use words::{REFUSAL, Words, table_length, typed, word_at};

// How much the ring's reader takes between two offers, and whether the ring is drawn.
#[derive(Clone, Copy)]
struct Reader {
    takes: usize,
    draws: bool,
}

// What the entries so far came to. No tape is long enough for a count to wrap.
#[derive(Clone, Copy)]
struct Tally {
    marks: Marks,
    entries: u64,
    taken: u64,
    sent: u64,
    // the last offer was blocked
    blocked: bool,
}

// The offer is counted, and the reader takes from the ring; then comes its line and, where that is asked for, the ring as the offer left it. The message
// stands behind what was held before.
fn show_entry(
    out: Stdout,
    ring: &[u8],
    kind: u8,
    answer: Answer,
    after: Marks,
    reader: Reader,
    tally: &mut Tally,
) -> io::Result<()> {
    let before = tally.marks;
    let entries = tally.entries.wrapping_add(!tally.blocked as u64);
    *tally = Tally {
        marks: taken_from(ring.len(), after, reader.takes),
        entries,
        taken: tally.taken.wrapping_add(answer.is_ok() as u64),
        sent: tally.sent.wrapping_add(grown(before, after)),
        blocked: answer == Err(Refusal::Blocked),
    };
    let mut behind = after;
    let _ = release(ring.len(), &mut behind, before.held);
    let sent = type_shown(read(ring, behind));
    print(out, line(entries, kind, number(answer), sent))?;
    if reader.draws {
        draw(out, ring.len(), after)?;
    }
    Ok(())
}

// How many bytes a step put behind the held ones.
fn grown(before: Marks, after: Marks) -> u64 {
    after.held.saturating_sub(before.held) as u64
}

// The next entry, or the same once more where it was blocked. `stream` has these lines too: as one function they would be a promise of `feed`, longer
// than they are.
fn asked(rt: HostRuntime, tape: &mut [u8], feed: Feed, blocked: bool) -> Feed
    ensures { result.left ≤ feed.left - 1 }
{
    if blocked {
        return again(feed);
    }
    next(&mut rt.stdin(), Pieces::Entries, tape, feed)
}

// What a day is played on: a table and a ring as long as the words ask for, the list of stocks, and the part of the tape that is held. (`stream` has the
// same: for the two a crate between them would be longer.)
#[derive(Drop)]
struct Day<'a> {
    table: &'a mut [u8],
    ring: &'a mut [u8],
    stocks: [u8; 9],
    tape: [u8; 4_096],
}

impl Day<'_> {
    // An offer for each entry, and one more for each time that it was blocked. What is no whole entry is the last, and the host answers 2 to it. Where
    // a line is not taken, the tally has its offer all the same.
    fn play(&mut self, rt: HostRuntime, reader: Reader, tally: &mut Tally) -> io::Result<()> {
        let mut feed = begin();
        while 0 < feed.left {
            feed = asked(rt, &mut self.tape, feed, tally.blocked);
            let entry = piece(&self.tape, feed);
            if let [kind, ..] = entry {
                let kind = *kind;
                let mut marks = tally.marks;
                let answer = step(self.table, self.ring, &mut marks, &mut self.stocks, entry);
                show_entry(rt.stdout(), self.ring, kind, answer, marks, reader, tally)?;
            }
        }
        Ok(())
    }
}

// A fresh day, the tape, and what came of it: at the end the reader empties the ring, and the counts are told. That line is tried behind one that was not
// taken, too, since what has room for less may have room for it.
fn play_with(rt: HostRuntime, words: Words, draws: bool) -> io::Result<()>
    requires { Allowed words }
{
    let mut table = [0u8; desk::TABLE_SIZE];
    let mut ring = [0u8; LONGEST_RING];
    let mut day = Day {
        table: &mut table[..table_length(words)],
        ring: &mut ring[..words.ring],
        stocks: desk::STOCKS,
        tape: [0; 4_096],
    };
    let out = rt.stdout();
    let takes = words.release;
    let _ = desk::open(day.table);
    let _ = out.write_all(&FIRST_LINE);
    let mut tally = Tally {
        marks: Marks { at: 0, held: 0 },
        entries: 0,
        taken: 0,
        sent: 0,
        blocked: false,
    };
    let played = day.play(rt, Reader { takes, draws }, &mut tally);
    if draws && played.is_ok() {
        drain(out, words.ring, tally.marks, takes);
    }
    print(out, last_line(tally.taken, tally.sent)).and(played)
}

fn main(rt: HostRuntime) {
    let draws = word_at(&rt, 1, &mut [0; 16]) == Some(b"outbox");
    let Some(words) = typed(&rt, draws) else {
        let _ = rt.stderr().write_all(b"replay: outbox may stand first; ");
        let _ = rt.stderr().write_all(&REFUSAL);
        return;
    };
    if play_with(rt, words, draws).is_err() {
        let _ = rt
            .stderr()
            .write_all(b"replay: standard output takes no more\n");
    }
}
