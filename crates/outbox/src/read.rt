// Reading: the longest unbroken run of held bytes, handed back as a part of the caller's own ring.
ghost use Rattle.std.specs.Prelude.{◌≡◌, length};
ghost use Rattle.outbox.specs.Outbox.{read_run};
ghost use Rattle.outbox.specs.Place.{read_place, on_by};

use crate::marks::{Marks, ring_good};

// The promise gives the part's bytes and its address, `ptr`: it is the caller's own memory, and nothing was copied.
pub fn read(ring: &[u8], marks: Marks) -> &[u8]
    ensures { (result.now ≡ read_run ring.now marks) × (result.ref_ptr ≡ on_by (read_place (length ring.now) marks) ring.entry.ref_ptr) }
{
    let n = ring.len();
    if !ring_good(n, marks) {
        return &ring[..0];
    }
    let Marks { at, held } = marks;
    if held <= n - at {
        &ring[at..at + held]
    } else {
        &ring[at..n]
    }
}
