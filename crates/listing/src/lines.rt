// The lines of a listing, each at the front of some bytes.
ghost use Rattle.std.specs.Prelude.{◌≡◌, ◌<◌};
ghost use Rattle.io.specs.Digits.{hex_digit_ascii};
ghost use Rattle.listing.specs.Lines.{line, type_shown, last_line, Shows, in_hex};

pub use crate::shown::Shown;
use crate::text::blank;

pub const FIRST_LINE: [u8; 23] = *b"entry kind answer sent\n";

// The sixteen letters that half a byte is shown in.
const SIXTEEN: [u8; 16] = *b"0123456789abcdef";

fn sixteenth(d: u8) -> u8
    requires { d < 16 }
    ensures { result ≡ hex_digit_ascii d }
{
    SIXTEEN[d as usize]
}

fn in_hex(kind: u8) -> [u8; 4]
    ensures { result ≡ in_hex kind }
{
    [b' ', sixteenth(kind / 16), sixteenth(kind % 16), b' ']
}

// Entry number, kind in hex, answer, type sent or a dash.
pub fn line(number: u64, kind: u8, answer: u8, sent: u8) -> Shown
    ensures { Shows result (line number kind answer sent) }
{
    blank()
        .named(b"", number)
        .named(&in_hex(kind), answer as u64)
        .said(&[b' ', sent, b'\n'])
}

// The type of what was sent, which is its first byte, or a dash.
#[tactic(auto, unfolding(crate::specs::Lines::type_shown))]
pub fn type_shown(sent: &[u8]) -> u8
    ensures { result ≡ type_shown sent.now }
{
    match sent {
        [] => b'-',
        [first, ..] => *first,
    }
}

// Entries answered 0, bytes sent.
pub fn last_line(taken: u64, sent: u64) -> Shown
    ensures { Shows result (last_line taken sent) }
{
    blank()
        .named(b"taken ", taken)
        .named(b" bytes ", sent)
        .said(b"\n")
}
