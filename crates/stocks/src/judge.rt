// Whether a list is right. Nearly every list that is judged is, and has to be looked at to its end: so two places are looked at in a turn, and each
// symbol is read once. One place a turn, by `chunks_exact`, takes a quarter longer, and the bar is one pass by hand (docs/BENCHMARKS.md).
ghost use Rattle.std.specs.Prelude.{◌≡◌, ◌+◌, ◌*◌, ◌<◌, ◌≤◌, length};
ghost use Rattle.octets.specs.Choice.{all_below, among};
ghost use Rattle.wire.specs.Letters.{stock_states};
ghost use Rattle.stocks.specs.Limits.{place_size};
ghost use Rattle.stocks.specs.Stocks.{state_at, place_good, list_good};

use crate::places::{PLACE_SIZE, SYMBOL_SIZE, rank_at};
use wire::letters::is_stock_state;

pub const MOST_PLACES: usize = 2_000;

#[tactic(auto, unfolding(crate::specs::Stocks::state_at))]
fn state_good(list: &[u8], i: usize) -> bool
    requires { place_size * i + place_size ≤ length list.now }
    ensures { result ≡ among stock_states (state_at list.now i) }
{
    is_stock_state(list[PLACE_SIZE * i + SYMBOL_SIZE])
}

// All n places. The first stands behind none.
fn places_good(list: &[u8], n: usize) -> bool
    requires { (0 < n) × (place_size * n ≤ length list.now) }
    ensures { result ≡ all_below n (place_good list.now) }
{
    if !state_good(list, 0) {
        return false;
    }
    let mut last = rank_at(list, 0);
    let mut i: usize = 1;
    while i + 1 < n {
        let first = rank_at(list, i);
        let second = rank_at(list, i + 1);
        if !((last < first) & (first < second)) {
            return false;
        }
        if !state_good(list, i) {
            return false;
        }
        if !state_good(list, i + 1) {
            return false;
        }
        last = second;
        i += 2;
    }
    if i < n {
        return (last < rank_at(list, i)) & state_good(list, i);
    }
    true
}

#[tactic(auto, unfolding(crate::specs::Stocks::list_good, crate::specs::Stocks::size_good, crate::specs::Stocks::places_in))]
pub fn list_good(list: &[u8]) -> bool
    ensures { result ≡ list_good list.now }
{
    let n = list.len() / PLACE_SIZE;
    list.is_empty() || (n <= MOST_PLACES && list.len() == PLACE_SIZE * n && places_good(list, n))
}
