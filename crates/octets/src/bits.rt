// The eight bits of a byte, the lowest first: one told, one changed, and whether all lie below a place.
ghost use Rattle.std.specs.Prelude.{◌≡◌, false, ◌<◌, ◌≤◌, ◌^◌, ltb};
ghost use Rattle.octets.specs.Bits.{bit_of, with_bit};

#[tactic(auto, using(crate::proofs::BitLaws::bit_shifted))]
pub fn bit_of(b: u8, k: usize) -> bool
    requires { k < 8 }
    ensures { result ≡ bit_of b k }
{
    (b >> k) % 2 == 1
}

// A bit that is set is 2 to the k of the byte.
fn without_bit(b: u8, k: usize) -> u8
    requires { k < 8 }
    ensures { result ≡ with_bit b k false }
{
    if bit_of(b, k) {
        return b - (1u8 << k);
    }
    b
}

// The byte with bit k as said. The bit is taken off first, so there is room for it.
pub fn with_bit(b: u8, k: usize, on: bool) -> u8
    requires { k < 8 }
    ensures { result ≡ with_bit b k on }
{
    let off = without_bit(b, k);
    if on {
        return off + (1u8 << k);
    }
    off
}

// Whether no bit is set from bit n on. Two bytes wide, since 2 to the 8 is no byte.
pub fn none_from(b: u8, n: usize) -> bool
    requires { n ≤ 8 }
    ensures { result ≡ ltb b (2 ^ n) }
{
    (b as u16) < (1u16 << n)
}
