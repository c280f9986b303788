// The three messages that a client sends to the purge port: a struct for each shape, read as every message is (`wire::body`).
#![tactic(auto, unfolding(crate::proofs::Opened::opened))]

pub mod mass_cancel;
pub mod order_entry;

ghost use Rattle.std.specs.Prelude.{◌≡◌};
ghost use Rattle.wire.specs.Messages.{length_for};
ghost use Rattle.purge.specs.Purge.{requests};

use crate::order_entry::{DISABLE, ENABLE};

// The length of the message with this type, 0 where there is none: a row of them is cut by it, as a tape and a stream are by the lengths that the C
// door hands on.
pub fn request_length(letter: u8) -> usize
    ensures { result ≡ length_for requests letter }
{
    match letter {
        b'M' => 25,
        DISABLE => 15,
        ENABLE => 15,
        _ => 0,
    }
}
