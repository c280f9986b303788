// What a table keeps beside its records of each that is live (Ask 6), read from the record's bytes alone.
ghost use Rattle.std.specs.Prelude.{◌≡◌};
ghost use Rattle.orders.specs.Order.{order_of, is_live, open_of};

use crate::counts::open_shares;
use crate::record::{RECORD_SIZE, counts_of};
use octets::byte_at;
use wire::shares::Removed;

pub fn lives(r: &[u8; RECORD_SIZE]) -> bool
    ensures { result ≡ is_live (order_of r.now) }
{
    byte_at(r, 0) == b'L'
}

// What is open of it: nothing, unless it is live.
pub fn open_in(r: &[u8; RECORD_SIZE]) -> Removed
    ensures { result ≡ open_of (order_of r.now) }
{
    if lives(r) {
        return open_shares(counts_of(r));
    }
    Removed(0)
}
