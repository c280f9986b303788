// A stock's state set: one byte of the list, where the symbol is listed.
ghost use Rattle.std.specs.Prelude.{◌≡◌, true};
ghost use Rattle.stocks.specs.Stocks.{list_good, with_state};

use crate::find::Listed;
use crate::places::{PLACE_SIZE, SYMBOL_SIZE};

// Where it is not listed no byte changes. The state stays its letter: `with_state` writes the byte that the judged entry holds.
#[tactic(auto, unfolding(crate::specs::Stocks::places_in))]
pub fn set_state(list: &mut [u8], symbol: [u8; 8], state: u8)
    requires { list_good list.old ≡ true }
    ensures { list.new ≡ with_state list.old symbol state }
{
    let listed = Listed { bytes: list };
    if let Some(i) = listed.place_of(symbol) {
        list[PLACE_SIZE * i + SYMBOL_SIZE] = state;
    }
}
