// Which record a token means: the first used one that has it.
ghost use Rattle.std.specs.Prelude.{◌≡◌, ◌≤◌};
ghost use Rattle.octets.specs.Choice.{first_below};
ghost use Rattle.table.specs.Table.{records_in, HasRecord, has_token, place_of, order_from};

use crate::compare::same_backwards;
use crate::places::{order_at, record_bytes, used};
use orders::order::{Order, no_order};

fn has_token(table: &[u8], token: [u8; 14], i: usize) -> bool
    requires { HasRecord table.now i }
    ensures { result ≡ has_token table.now token i }
{
    let r = record_bytes(table, i);
    same_backwards(&r[1..15], &token)
}

// Two records are looked at in a turn, where a `for` looks at one: then the jump back takes as long as the look. Finding is to take at most what the
// search by hand in words takes, which looks at one (docs/BENCHMARKS.md).
fn first(table: &[u8], token: [u8; 14], n: usize) -> usize
    requires { n ≤ records_in table.now }
    ensures { result ≡ first_below n (has_token table.now token) }
{
    let mut i: usize = 0;
    while i + 1 < n {
        if has_token(table, token, i) {
            return i;
        }
        if has_token(table, token, i + 1) {
            return i + 1;
        }
        i += 2;
    }
    if i < n && has_token(table, token, i) {
        return i;
    }
    n
}

// The place of the token's record; the number behind the used records where none has it, as `place_of` has it, of which the theorems of the day
// speak, and as C is told it (`pq_find`).
pub fn find(table: &[u8], token: [u8; 14]) -> usize
    ensures { result ≡ place_of table.now token }
{
    first(table, token, used(table))
}

// The order at a place that `find` gave.
pub fn order_from(table: &[u8], i: usize) -> Order
    ensures { result ≡ order_from table.now i }
{
    if i < used(table) {
        return order_at(table, i);
    }
    no_order()
}
