// Plays the tape on standard input through a fresh host with one stock, ABC, which trades; what the host sends goes to standard output as it is.
//
// The words are `ring N`, `release K` and `records N`: another ring, a reader that takes K bytes between two offers, and another table. An entry that
// is blocked is offered again until it is not, and at the end the reader takes what is still held. So the bytes are the same whatever the ring and
// its reader are.
//
// What the reader took of a message is written before the next read waits. Where standard output is full or closed, or nobody reads it any
// longer, the program says so on standard error and stops.
#![tactic(auto)]

ghost use Rattle.std.specs.Prelude.{◌-◌, ◌≤◌};
ghost use Rattle.words.specs.Words.{Allowed};

use answers::Refusal;
use feed::pieces::Pieces;
use feed::{Feed, again, begin, next, piece};
use host::step::step;
use outbox::marks::{LONGEST_RING, Marks};
use outbox::read::read;
use outbox::release::release;
use std::io;
use std::io::{Print, Stdout};
use words::{REFUSAL, Words, table_length, typed};

// The run at the read place, or as much of it as the reader takes, is written and given up. How much more it takes.
fn send_run(out: Stdout, ring: &[u8], marks: &mut Marks, takes: usize) -> io::Result<usize> {
    let run = read(ring, *marks);
    let n = takes.min(run.len());
    out.write_all(&run[..n])?;
    let _ = release(ring.len(), marks, n);
    Ok(takes - n)
}

// What is held may go on at the ring's start, so it is two runs.
fn send(out: Stdout, ring: &[u8], marks: &mut Marks, takes: usize) -> io::Result<()> {
    let left = send_run(out, ring, marks, takes)?;
    send_run(out, ring, marks, left)?;
    Ok(())
}

// The next entry, or the same once more where it was blocked. `replay` has these lines too: as one function they would be a promise of `feed`, longer
// than they are.
fn asked(rt: HostRuntime, tape: &mut [u8], feed: Feed, blocked: bool) -> Feed
    ensures { result.left ≤ feed.left - 1 }
{
    if blocked {
        return again(feed);
    }
    next(&mut rt.stdin(), Pieces::Entries, tape, feed)
}

// What a day is played on: a table and a ring as long as the words ask for, the list of stocks, and the part of the tape that is held. (`replay` has the
// same: for the two a crate between them would be longer.)
#[derive(Drop)]
struct Day<'a> {
    table: &'a mut [u8],
    ring: &'a mut [u8],
    stocks: [u8; 9],
    tape: [u8; 4_096],
}

impl Day<'_> {
    // An offer for each entry, and one more for each time that it was blocked; after each the reader takes from the ring. What is no whole entry is
    // the last, and the host takes nothing of it.
    fn play(&mut self, rt: HostRuntime, takes: usize) -> io::Result<Marks> {
        let mut feed = begin();
        let mut marks = Marks { at: 0, held: 0 };
        let mut blocked = false;
        while 0 < feed.left {
            feed = asked(rt, &mut self.tape, feed, blocked);
            let entry = piece(&self.tape, feed);
            if !entry.is_empty() {
                let answer = step(self.table, self.ring, &mut marks, &mut self.stocks, entry);
                blocked = answer == Err(Refusal::Blocked);
                send(rt.stdout(), self.ring, &mut marks, takes)?;
            }
        }
        Ok(marks)
    }
}

// A fresh day and the tape; at the end the reader takes all that is held.
fn play_with(rt: HostRuntime, words: Words) -> io::Result<()>
    requires { Allowed words }
{
    let mut table = [0u8; desk::TABLE_SIZE];
    let mut ring = [0u8; LONGEST_RING];
    let mut day = Day {
        table: &mut table[..table_length(words)],
        ring: &mut ring[..words.ring],
        stocks: desk::STOCKS,
        tape: [0; 4_096],
    };
    let _ = desk::open(day.table);
    let mut marks = day.play(rt, words.release)?;
    send(rt.stdout(), day.ring, &mut marks, LONGEST_RING)?;
    Ok(())
}

fn main(rt: HostRuntime) {
    let Some(words) = typed(&rt, false) else {
        let _ = rt.stderr().write_all(b"stream: ");
        let _ = rt.stderr().write_all(&REFUSAL);
        return;
    };
    if play_with(rt, words).is_err() {
        let _ = rt
            .stderr()
            .write_all(b"stream: standard output takes no more\n");
    }
}
