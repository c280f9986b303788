// The firms of a header: eight places of four bytes in a row, of which the first so many are listed.
ghost use Rattle.std.specs.Prelude.{◌≡◌};
ghost use Rattle.header.specs.Firms.{firm_at, is_blank, meant_firm, is_listed, firm_place, firm_blocked, blocked_with, firms_shaped, rest_blank};

use crate::Header;
use octets::bits::{bit_of, with_bit};
use wire::text::is_shaped;

pub const MOST_FIRMS: usize = 8;

// A firm's code: one to four capitals, then spaces.
pub const FIRM_SIZE: usize = 4;

// The firm at place k; four zeros past the eighth.
pub fn firm_at(firms: [u8; 32], k: usize) -> [u8; 4]
    ensures { result ≡ firm_at firms k }
{
    if k < MOST_FIRMS {
        return octets::bytes_at(&firms, FIRM_SIZE * k);
    }
    [0u8; 4]
}

pub fn is_blank(firm: [u8; 4]) -> bool
    ensures { result ≡ is_blank firm }
{
    firm == *b"    "
}

// A blank firm means the default.
pub fn meant_firm(h: Header, firm: [u8; 4]) -> [u8; 4]
    ensures { result ≡ meant_firm h firm }
{
    if is_blank(firm) {
        return firm_at(h.firms, 0);
    }
    firm
}

// The first place that holds the firm; the count where none does, as the definition `firm_place` has it, of which `is_listed` and the theorems of
// the blocked firms' bits speak.
pub fn firm_place(h: Header, firm: [u8; 4]) -> usize
    ensures { result ≡ firm_place h firm }
{
    let count = h.count as usize;
    for k in 0..count {
        if firm_at(h.firms, k) == firm {
            return k;
        }
    }
    count
}

pub fn is_listed(h: Header, firm: [u8; 4]) -> bool
    ensures { result ≡ is_listed h firm }
{
    firm_place(h, firm) < h.count as usize
}

// A place past the eighth has no bit, so the firm there is not blocked.
pub fn firm_blocked(h: Header, firm: [u8; 4]) -> bool
    ensures { result ≡ firm_blocked h firm }
{
    let place = firm_place(h, firm);
    if place < MOST_FIRMS {
        return bit_of(h.blocked, place);
    }
    false
}

// The header's blocked firms, with the one at this place blocked or not, as said.
pub fn blocked_with(h: Header, place: usize, on: bool) -> u8
    ensures { result ≡ blocked_with h place on }
{
    if place < (h.count as usize).min(MOST_FIRMS) {
        return with_bit(h.blocked, place, on);
    }
    h.blocked
}

pub fn firms_shaped(firms: [u8; 32], count: usize) -> bool
    ensures { result ≡ firms_shaped firms count }
{
    for k in 0..count {
        if !is_shaped(&firm_at(firms, k)) {
            return false;
        }
    }
    true
}

// The places past the count hold zeros.
pub(crate) fn rest_blank(firms: [u8; 32], count: usize) -> bool
    ensures { result ≡ rest_blank firms count }
{
    let mut ok = true;
    for k in 0..MOST_FIRMS {
        ok = ok & ((k < count) | octets::are_zero(&firms, FIRM_SIZE * k, FIRM_SIZE));
    }
    ok
}
