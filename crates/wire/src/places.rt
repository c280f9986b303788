// Where a field's bytes are bad. One question for each thing that the paper judges; messages and entries both ask them, at their own
// offsets. That nothing is bad is that there is no first bad place.
#![tactic(auto, unfolding(crate::specs::Layout::bad_place, octets::specs::Choice::text))]

ghost use Rattle.std.specs.Prelude.{◌≡◌, ◌+◌, ◌<◌, ◌≤◌, length};
ghost use Rattle.octets.specs.Bytes.{part};
ghost use Rattle.octets.specs.Choice.{text};
ghost use Rattle.wire.specs.Letters.{sides, sweeps, liquidity_flags, book_reasons, system_events, stock_states};
ghost use Rattle.wire.specs.Limits.{stamp_end, lowest_price, highest_price};
ghost use Rattle.answers.specs.Answer.{Done};
ghost use Rattle.wire.specs.Messages.{bad_at◌⨾◌};
ghost use Rattle.wire.specs.Layout.{unless, bad_place, below, between, one_of, legal_token, blank};

use crate::letters::{is_among, is_stock_state};
use crate::price::Price;
use crate::text::is_token_byte;
use answers::{Answer, Refusal};

// The nanoseconds of a day.
pub const STAMP_END: u64 = 86_400_000_000_000;

// What a first bad place answers; where nothing is bad, that is fine.
pub fn unless_bad(bad: Option<usize>) -> Answer
    ensures { result ≡ (bad_at bad ⨾ Done) }
{
    match bad {
        Some(at) => Err(Refusal::BadField(at)),
        None => Ok(()),
    }
}

// A field that is judged as a whole is bad from its first byte on.
fn unless(ok: bool, at: usize) -> Option<usize>
    ensures { result ≡ unless ok at }
{
    if ok { None } else { Some(at) }
}

pub fn bad_stamp(s: &[u8], at: usize) -> Option<usize>
    requires { at + 8 ≤ length s.now }
    ensures { result ≡ bad_place (below stamp_end) at (part s.now at 8) }
{
    unless(octets::be64(s, at) < STAMP_END, at)
}

pub fn bad_limit_price(s: &[u8], at: usize) -> Option<usize>
    requires { at + 4 ≤ length s.now }
    ensures { result ≡ bad_place (between lowest_price highest_price) at (part s.now at 4) }
{
    let price = octets::be32(s, at);
    unless(matches!(price, Price::LOWEST..=Price::HIGHEST), at)
}

// A number of two bytes that is to be 0.
pub fn bad_nonzero(s: &[u8], at: usize) -> Option<usize>
    requires { at + 2 ≤ length s.now }
    ensures { result ≡ bad_place (between 0 0) at (part s.now at 2) }
{
    unless(octets::be16(s, at) == 0, at)
}

// A text of n bytes that is to be blank. It is judged as a whole: which of its bytes says something says nothing.
pub fn bad_blank(s: &[u8], at: usize, n: usize) -> Option<usize>
    requires { at + n ≤ length s.now }
    ensures { result ≡ bad_place blank at (part s.now at n) }
{
    unless(octets::are_all(s, at, n, b' '), at)
}

// The fourteen bytes are looked at one by one, so the place is that of the first byte that no token holds.
pub fn bad_token(s: &[u8], at: usize) -> Option<usize>
    requires { at + 14 ≤ length s.now }
    ensures { result ≡ bad_place legal_token at (part s.now at 14) }
{
    for i in at..at + 14 {
        if !is_token_byte(s[i]) {
            return Some(i);
        }
    }
    None
}

// A byte that is to be one of these letters. Those below stay beside it: at a call they name the field, where the letters would not.
fn bad_letter<const N: usize>(s: &[u8], at: usize, letters: [u8; N]) -> Option<usize>
    requires { at < length s.now }
    ensures { (set : _) → text set ≡ letters.entry → result ≡ bad_place (one_of set) at (part s.now at 1) }
{
    unless(is_among(letters, octets::byte_at(s, at)), at)
}

pub fn bad_side(s: &[u8], at: usize) -> Option<usize>
    requires { at < length s.now }
    ensures { result ≡ bad_place (one_of sides) at (part s.now at 1) }
{
    bad_letter(s, at, *b"BSTE")
}

pub fn bad_sweep(s: &[u8], at: usize) -> Option<usize>
    requires { at < length s.now }
    ensures { result ≡ bad_place (one_of sweeps) at (part s.now at 1) }
{
    bad_letter(s, at, *b"YNy")
}

pub fn bad_liquidity_flag(s: &[u8], at: usize) -> Option<usize>
    requires { at < length s.now }
    ensures { result ≡ bad_place (one_of liquidity_flags) at (part s.now at 1) }
{
    bad_letter(s, at, *b"AROMCLHKJmkV")
}

pub fn bad_book_reason(s: &[u8], at: usize) -> Option<usize>
    requires { at < length s.now }
    ensures { result ≡ bad_place (one_of book_reasons) at (part s.now at 1) }
{
    bad_letter(s, at, *b"ITSDZE")
}

pub fn bad_system_event(s: &[u8], at: usize) -> Option<usize>
    requires { at < length s.now }
    ensures { result ≡ bad_place (one_of system_events) at (part s.now at 1) }
{
    bad_letter(s, at, *b"SE")
}

pub fn bad_stock_state(s: &[u8], at: usize) -> Option<usize>
    requires { at < length s.now }
    ensures { result ≡ bad_place (one_of stock_states) at (part s.now at 1) }
{
    unless(is_stock_state(octets::byte_at(s, at)), at)
}
