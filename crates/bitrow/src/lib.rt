// One yes or no for each of many things, eight to a lent byte: thing i has bit i % 8 of byte i / 8, where bit 0 is the lowest. A bit is told or
// changed, the ones are counted, a byte's lowest one is found and cleared, and a row is asked whether it is clear from a place on.
//
// A bit past the row is not set, and setting it changes nothing: so none of these asks where the row ends but `ones`, whose count must fit.
#![tactic(auto)]

ghost use Rattle.std.specs.Prelude.{◌≡◌, true, false, ◌*◌, ◌<◌, ◌≤◌, ◌^◌, length};
ghost use Rattle.std.specs.Int.RustNames.{count_ones};
ghost use Rattle.octets.specs.Choice.{first_below};
ghost use Rattle.octets.specs.Bits.{bit_of, with_bit};
ghost use Rattle.bitrow.specs.Row.{bit_at, with_bit_at, ones_in, clear_from};

use octets::are_zero;
use octets::bits::{bit_of, none_from, with_bit};

pub fn bit_at(bits: &[u8], i: usize) -> bool
    ensures { result ≡ bit_at bits.now i }
{
    bits.get(i / 8).is_some_and(|b| bit_of(*b, i % 8))
}

// Only the byte in which bit i lies is written. Its place is tested here, since a slice's `get_mut` tells a proof no element.
pub fn set_bit(bits: &mut [u8], i: usize, on: bool)
    ensures { bits.new ≡ with_bit_at bits.old i on }
{
    let at = i / 8;
    if at < bits.len() {
        bits[at] = with_bit(bits[at], i % 8, on);
    }
}

// The ones of one byte, which the processor counts at once. That they are few bounds the sum over a row.
fn ones_of(b: &u8) -> usize
    ensures { (result ≡ count_ones b.now) × (result ≤ 8) }
{
    b.count_ones() as usize
}

// The ones of the whole row.
pub fn ones(bits: &[u8]) -> usize
    requires { 8 * length bits.now < 2 ^ 64 }
    ensures { result ≡ ones_in bits.now }
{
    bits.iter().map(ones_of).sum()
}

// The place of the lowest bit that is set, or 8, as `trailing_zeros` has it, and `first_below` in the definitions.
pub fn lowest(b: u8) -> usize
    ensures { result ≡ first_below 8 (bit_of b) }
{
    b.trailing_zeros() as usize
}

// A byte without one of its bits that are set: whoever has just found the bit need not ask for it again.
pub fn cleared(b: u8, k: usize) -> u8
    requires { (k < 8) × (bit_of b k ≡ true) }
    ensures { result ≡ with_bit b k false }
{
    b - (1u8 << k)
}

// Whether no bit is set from bit n on. Asked at every step: the byte in which n lies by one comparison, those behind it without a branch.
pub fn clear_from(bits: &[u8], n: usize) -> bool
    ensures { result ≡ clear_from bits.now n }
{
    let at = n / 8;
    let end = bits.len();
    if at < end {
        return none_from(bits[at], n % 8) & are_zero(bits, at + 1, end - (at + 1));
    }
    true
}
