// Releasing: the oldest k bytes are given up. The read place moves on around the ring, and no byte moves.
ghost use Rattle.std.specs.Prelude.{◌≡◌};
ghost use Rattle.outbox.specs.Outbox.{release_answer, release_marks};

use crate::marks::{Marks, around, ring_good};
use answers::{Answer, Refusal};

pub fn release(n: usize, marks: &mut Marks, k: usize) -> Answer
    ensures value { result ≡ release_answer n marks.old k }
    ensures marks_after { marks.new ≡ release_marks n marks.old k }
{
    if !ring_good(n, *marks) {
        return Err(Refusal::WrongRing);
    }
    if marks.held < k {
        return Err(Refusal::NotHeld);
    }
    *marks = Marks {
        at: around(n, marks.at + k),
        held: marks.held - k,
    };
    Ok(())
}
