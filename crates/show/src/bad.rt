// Where an entry is bad: the field, the offset and the byte, in a line under the entry's own.
use crate::line::{end_line, say, say_letter, say_number};
use std::io;
use std::io::Stdout;
use tape::kinds::Kind;

// Where a token stands behind the stamp, and what stands behind it.
const TOKEN: usize = 9;

const BEHIND: usize = 23;

// Where a Replace's own token ends.
const BEHIND_REPLACEMENT: usize = 37;

pub(crate) fn point_at(out: Stdout, kind: Kind, at: usize, b: u8) -> io::Result<()> {
    say(out, b"  bad ");
    say(out, field(kind, at));
    say_number(out, b" at ", at as u64);
    say_number(out, b": byte ", b as u64);
    say_letter(out, b" ", b);
    end_line(out)
}

// Every kind has a stamp, and every kind but s h w d n a token behind it; of w d n the stamp alone is judged.
fn field(kind: Kind, at: usize) -> &'static [u8] {
    match kind {
        _ if at < TOKEN => b"stamp",
        _ if BEHIND <= at => behind(kind, at),
        Kind::TellsDay => b"event",
        Kind::SetsStock => b"state",
        _ => b"token",
    }
}

// The judged fields behind the token, kind by kind.
fn behind(kind: Kind, at: usize) -> &'static [u8] {
    match kind {
        Kind::Enters if at == BEHIND => b"side",
        Kind::Replaces if at < BEHIND_REPLACEMENT => b"replacement token",
        Kind::Enters | Kind::Replaces => b"sweep",
        Kind::Modifies => b"side",
        Kind::Executes | Kind::SelfMatches => b"liquidity flag",
        Kind::BookCancels => b"reason",
        Kind::Prioritises => b"price",
        _ => b"field",
    }
}
