// Putting: a message goes right behind the held bytes, or it is turned away whole.
ghost use Rattle.std.specs.Prelude.{◌≡◌, ◌≤◌, true, length};
ghost use Rattle.outbox.specs.Outbox.{ring_good, free_bytes, ring_with, marks_with, put_answer, put_marks, put_ring};
ghost use Rattle.outbox.specs.Runs.{in_two_runs};

use crate::marks::{Marks, around, ring_good};
use answers::{Answer, Refusal};

// Takes the message, or turns it away: the ring is judged and the room asked for before the first byte is written.
pub fn put(ring: &mut [u8], marks: &mut Marks, message: &[u8]) -> Answer
    ensures value { result ≡ put_answer (length ring.old) marks.old (length message.now) }
    ensures marks_after { marks.new ≡ put_marks (length ring.old) marks.old (length message.now) }
    ensures ring_after { ring.new ≡ put_ring ring.old marks.old message.now }
{
    let n = ring.len();
    if !ring_good(n, *marks) {
        return Err(Refusal::WrongRing);
    }
    if n - marks.held < message.len() {
        return Err(Refusal::Blocked);
    }
    append(ring, marks, message);
    Ok(())
}

// The same for a caller that has judged the ring and asked for room itself: the host, which judges once and not twice.
pub fn append(ring: &mut [u8], marks: &mut Marks, message: &[u8])
    requires { (ring_good (length ring.old) marks.old ≡ true) × (length message.now ≤ free_bytes (length ring.old) marks.old) }
    ensures marks_after { marks.new ≡ marks_with marks.old (length message.now) }
    ensures ring_after { ring.new ≡ ring_with ring.old marks.old message.now }
{
    let place = around(ring.len(), marks.at + marks.held);
    copy_around(ring, place, message);
    marks.held += message.len();
}

// Two unbroken copies, up to the ring's end and from its start, so that no byte has to be tested for the end.
fn copy_around(ring: &mut [u8], place: usize, message: &[u8])
    requires { (place ≤ length ring.old) × (length message.now ≤ length ring.old) }
    ensures { ring.new ≡ in_two_runs ring.old place message.now }
{
    let size = message.len();
    let to_end = ring.len() - place;
    if size <= to_end {
        octets::put_bytes(ring, place, message);
    } else {
        octets::put_bytes(ring, place, &message[..to_end]);
        octets::put_bytes(ring, 0, &message[to_end..size]);
    }
}
