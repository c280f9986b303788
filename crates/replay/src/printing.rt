// What is written to standard output: lines, and the drawing of a ring as it stands and as its reader empties it.
ghost use Rattle.std.specs.Prelude.{◌≤◌};

use listing::drawing::ring_line;
use listing::lines::Shown;
use outbox::marks::Marks;
use outbox::release::release;
use std::io;
use std::io::{Print, Stdout};

pub(crate) fn print(out: Stdout, shown: Shown) -> io::Result<()> {
    out.write_all(&shown.bytes[..shown.len])
}

// No ring is as long: the drawing's numbers have 32 bits.
fn small(n: usize) -> u32 {
    (n % 4_294_967_296) as u32
}

pub(crate) fn draw(out: Stdout, size: usize, marks: Marks) -> io::Result<()> {
    print(
        out,
        ring_line(small(size), small(marks.at), small(marks.held)),
    )
}

// The marks after a reader took as much as it takes, or all that is held.
pub(crate) fn taken_from(size: usize, marks: Marks, takes: usize) -> Marks {
    let mut after = marks;
    let _ = release(size, &mut after, takes.min(marks.held));
    after
}

// The reader goes on alone until nothing is held, and the ring is drawn each time that it took, from the last offer on. Whether the output took it is
// told of the line behind it, the last.
pub(crate) fn drain(out: Stdout, size: usize, marks: Marks, takes: usize)
    requires { 1 ≤ takes }
{
    let mut now = marks;
    for _ in 0..marks.held.div_ceil(takes) {
        let _ = draw(out, size, now);
        now = taken_from(size, now, takes);
    }
    let _ = draw(out, size, now);
}
