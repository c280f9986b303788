// Symbols as numbers, the first byte highest: of two symbols the earlier one is the lower number, and one comparison settles all eight bytes.
ghost use Rattle.std.specs.Prelude.{◌≡◌, ◌+◌, ◌*◌, ◌≤◌, length};
ghost use Rattle.octets.specs.Bytes.{number_of};
ghost use Rattle.stocks.specs.Limits.{symbol_size, place_size};
ghost use Rattle.wire.specs.Legal.{Bytes};
ghost use Rattle.stocks.specs.Ranks.{rank_at};

use octets::bytes_at;

// A place is a symbol and its state.
pub(crate) const SYMBOL_SIZE: usize = 8;

pub(crate) const PLACE_SIZE: usize = 9;

// That these are bytes is said, too: of an array that a caller was handed its proof does not know it.
pub(crate) fn rank(symbol: [u8; 8]) -> u64
    ensures { (result ≡ number_of symbol) × Bytes symbol }
{
    u64::from_be_bytes(symbol)
}

// The eight bytes are copied out at once, since read one by one from the list they stay eight loads.
#[tactic(auto, unfolding(crate::specs::Ranks::rank_at, crate::specs::Stocks::symbol_at))]
pub(crate) fn rank_at(list: &[u8], i: usize) -> u64
    requires { place_size * i + symbol_size ≤ length list.now }
    ensures { result ≡ rank_at list.now i }
{
    rank(bytes_at(list, PLACE_SIZE * i))
}
