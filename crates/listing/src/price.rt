// A price in dollars: the last four of its digits stand behind the point.
ghost use Rattle.std.specs.Prelude.{◌≡◌};
ghost use Rattle.listing.specs.Clock.{four_digits};

use crate::clock::digits;

// What stands behind the point.
pub fn behind_point(price: u32) -> [u8; 4]
    ensures { result ≡ four_digits price }
{
    digits(price as u64)
}
