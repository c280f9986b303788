// Taking more of the input: the held bytes go to the buffer's front, and what has come in goes behind them.
ghost use Rattle.std.specs.Prelude.{◌≡◌, ◌≤◌, length, take};
ghost use Rattle.feed.specs.Feed.{unread, Begins, Refills};

use crate::held::{Held, unread};
use crate::pieces::{Pieces, waits};
use std::io::Read;

// What is held, and as much of the input behind it as makes its front a whole piece: the one loop in which the house reads. It ends without a
// whole piece where the input does, or where no piece begins with what is there. A read that brings nothing says that the input has ended.
pub(crate) fn ready<R: Read>(
    input: &mut R,
    pieces: Pieces,
    buffer: &mut [u8],
    mut held: Held,
) -> Held
    ensures { Begins (unread buffer.old held) (unread buffer.new result) }
{
    while waits(pieces, unread(buffer, held)) {
        let (now, more) = refill(input, buffer, held);
        held = now;
        if more == 0 {
            break;
        }
    }
    held
}

// What is held after one read more, and how many bytes it brought: these and no others are held behind what was.
fn refill<R: Read>(input: &mut R, buffer: &mut [u8], held: Held) -> (Held, usize)
    ensures { Refills buffer.old held buffer.new result.0 result.1 }
{
    let n = keep(buffer, held);
    let more = read_some(input, &mut buffer[n..]);
    let now = Held {
        at: 0,
        end: n + more,
    };
    (now, more)
}

// The held bytes go to the front; the answer is how many there are.
fn keep(buffer: &mut [u8], held: Held) -> usize
    ensures { (take result buffer.new ≡ unread buffer.old held) × (result ≤ length buffer.new) }
{
    if buffer.len() < held.end || held.end < held.at {
        return 0;
    }
    buffer.copy_within(held.at..held.end, 0);
    held.end - held.at
}

// What is there, in one read: it waits only where there is nothing yet, and brings nothing where the input has ended or the read fails.
pub(crate) fn read_some<R: Read>(input: &mut R, space: &mut [u8]) -> usize
    ensures { (result ≤ length space.new) × (result ≡ length (take result space.new)) }
{
    input.read(space).unwrap_or(0)
}
