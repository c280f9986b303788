// A tape's entries, or the messages of a stream or of the purge port, handed out one by one as they come in.
//
// A program lends a buffer and asks for the next piece. It gets it as soon as its last byte is there: what has come in is taken at once, and
// only where no whole piece is held does a read wait for more. No function asks anything of its caller.
#![tactic(auto)]

mod held;
pub mod pieces;
mod refill;

ghost use Rattle.std.specs.Prelude.{◌≡◌, ◌-◌, ◌≤◌, length};
ghost use Rattle.feed.specs.Feed.{begun, piece_of, handed_out, sooner, ended, unread, past, held_by, Next};

use crate::held::{Held, past, unread};
use crate::pieces::{Pieces, whole};
use crate::refill::{read_some, ready};
use std::io::Read;

// The piece that was handed out last begins at `at` of the buffer and has `len` bytes; what was read ends before `end`. Nothing says that an
// input ends, and a proved loop has to: `left` counts down from more pieces than any input has, and is 0 once no piece can follow.
#[derive(Clone, Copy)]
pub struct Feed {
    pub at: usize,
    pub len: usize,
    pub end: usize,
    pub left: u64,
}

// Nothing read yet.
pub fn begin() -> Feed
    ensures { result ≡ begun }
{
    Feed {
        at: 0,
        len: 0,
        end: 0,
        left: u64::MAX,
    }
}

fn held_by(feed: Feed) -> Held
    ensures { result ≡ held_by feed }
{
    Held {
        at: feed.at,
        end: feed.end,
    }
}

// The piece that was handed out last, as a part of the buffer.
pub fn piece(buffer: &[u8], feed: Feed) -> &[u8]
    ensures { result.now ≡ piece_of buffer.now feed }
{
    let bytes = unread(buffer, held_by(feed));
    let n = feed.len.min(bytes.len());
    &bytes[..n]
}

// What was read behind it.
fn behind(feed: Feed) -> Held
    ensures { result ≡ past (held_by feed) feed.len }
{
    past(held_by(feed), feed.len)
}

// The piece at the front of what is held. Where there is no whole one, and the input will not complete it, it is all that is held, and the last.
fn handed_out(pieces: Pieces, buffer: &[u8], held: Held, left: u64) -> Feed
    ensures { result ≡ handed_out pieces (unread buffer.now held) held left }
{
    let bytes = unread(buffer, held);
    let n = whole(pieces, bytes);
    let (len, left) = if n == 0 {
        (bytes.len(), 0)
    } else {
        (n, left.saturating_sub(1))
    };
    Feed {
        at: held.at,
        len,
        end: held.end,
        left,
    }
}

// The piece behind the one that was handed out last. An empty one says that the input has ended, as far as a contract can speak of an input. The
// buffer stays the caller's, here and below, and what it held before is named in the promise.
pub fn next<R: Read>(input: &mut R, pieces: Pieces, buffer: &mut [u8], feed: Feed) -> Feed
    ensures { Next pieces feed buffer.old buffer.new result }
{
    let held = ready(input, pieces, buffer, behind(feed));
    handed_out(pieces, buffer, held, feed.left)
}

// The same piece once more.
pub fn again(feed: Feed) -> Feed
    ensures { (result ≡ sooner feed) × (result.left ≤ feed.left - 1) }
{
    Feed {
        left: feed.left.saturating_sub(1),
        ..feed
    }
}

// No further piece is asked for.
pub fn over(feed: Feed) -> Feed
    ensures { (result ≡ ended feed) × (result.left ≡ 0) }
{
    Feed { left: 0, ..feed }
}

// How many bytes are left over: those that are held from the last piece on, and all that the input still has. Nobody looks at them anymore,
// so they are read over each other.
pub fn rest<R: Read>(input: &mut R, buffer: &mut [u8], feed: Feed) -> u64
    ensures { length (unread buffer.old (held_by feed)) ≤ result }
{
    let count = held_count(buffer, feed);
    read_on(input, buffer, count)
}

fn held_count(buffer: &[u8], feed: Feed) -> u64
    ensures { result ≡ length (unread buffer.now (held_by feed)) }
{
    unread(buffer, held_by(feed)).len() as u64
}

// So many bytes, and as many as are read to the input's end.
fn read_on<R: Read>(input: &mut R, buffer: &mut [u8], count: u64) -> u64
    ensures { count ≤ result }
{
    let mut total = count;
    loop {
        let more = read_some(input, buffer) as u64;
        let Some(sum) = total.checked_add(more) else {
            return total;
        };
        if more == 0 {
            return total;
        }
        total = sum;
    }
}
