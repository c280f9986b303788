// The first order such that: one search, in record order, over whatever is wanted. The bits lead from one live record to the next, and those of the
// dead are never looked at.
ghost use Rattle.std.specs.Prelude.{◌≡◌, ◌&&◌, ◌+◌, ◌*◌, ◌<◌, ◌≤◌, ltb, length};
ghost use Rattle.octets.specs.Choice.{first_below};
ghost use Rattle.orders.specs.Wanted.{is_wanted};
ghost use Rattle.table.specs.Table.{records_in, order_at, bit_bytes, is_marked, first_marked};

use crate::places::{bit_bytes, record_bytes, used};
use bitrow::{cleared, lowest};
use orders::wanted::{Wanted, is_wanted};

// A record behind the first n is none that is wanted.
fn wanted_at(table: &[u8], wanted: Wanted, n: usize, i: usize) -> bool
    requires { n ≤ records_in table.now }
    ensures { result ≡ (ltb i n && is_wanted wanted (order_at table.now i)) }
{
    i < n && is_wanted(record_bytes(table, i), wanted)
}

// The first of the eight records whose bits are in byte `at`; the number behind them where there is none. A bit that has been looked at is cleared,
// so that the next one is the lowest again.
fn among_eight(table: &[u8], wanted: Wanted, n: usize, at: usize) -> usize
    requires { (n ≤ records_in table.now) × (at < length (bit_bytes table.now)) }
    ensures { result ≡ 8 * at + first_below 8 (λ j. is_marked table.now (8 * at + j) && (ltb (8 * at + j) n && is_wanted wanted (order_at table.now (8 * at + j)))) }
{
    let bits = bit_bytes(table);
    let mut left = bits[at];
    while left != 0 {
        let k = lowest(left);
        if wanted_at(table, wanted, n, 8 * at + k) {
            return 8 * at + k;
        }
        left = cleared(left, k);
    }
    8 * at + 8
}

// Its place; the number behind the used records where there is none, as `first_marked` has it, of which `by-the-bits` speaks, and as C is told it
// (`pq_find_wanted`).
pub fn find_wanted(table: &[u8], wanted: Wanted) -> usize
    ensures { result ≡ first_marked table.now (is_wanted wanted) }
{
    let n = used(table);
    for at in 0..bit_bytes(table).len() {
        let i = among_eight(table, wanted, n, at);
        if i < 8 * at + 8 {
            return i;
        }
    }
    n
}
