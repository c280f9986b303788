// What an input is cut into: the first byte of a piece says how long it is.
ghost use Rattle.std.specs.Prelude.{◌≡◌};
ghost use Rattle.feed.specs.Feed.{length_by, whole, waits};

use purge::request_length;
use tape::kinds::entry_length;
use wire::messages::message_length;

// The entries of a tape, the messages of an outbound stream, or those that a client sends to the purge port.
#[derive(Clone, Copy)]
pub enum Pieces {
    Entries,
    Messages,
    Requests,
}

// 0 for a letter that begins none, as the three functions say it.
fn length_by(pieces: Pieces, letter: u8) -> usize
    ensures { result ≡ length_by pieces letter }
{
    match pieces {
        Pieces::Entries => entry_length(letter),
        Pieces::Messages => message_length(false, letter),
        Pieces::Requests => request_length(letter),
    }
}

// How long the whole piece at the front is; 0 where there is none, as the definition has it that `Next` goes by.
pub(crate) fn whole(pieces: Pieces, bytes: &[u8]) -> usize
    ensures { result ≡ whole pieces bytes.now }
{
    let [letter, ..] = bytes else {
        return 0;
    };
    let n = length_by(pieces, *letter);
    if bytes.len() < n {
        return 0;
    }
    n
}

// Whether more of the input may make a whole piece of them.
pub(crate) fn waits(pieces: Pieces, bytes: &[u8]) -> bool
    ensures { result ≡ waits pieces bytes.now }
{
    match bytes {
        [] => true,
        [letter, ..] => bytes.len() < length_by(pieces, *letter),
    }
}
