// A list that was judged, and where a symbol stands in it, found by halving.
ghost use Rattle.std.specs.Prelude.{◌≡◌, true, ◌+◌, ◌*◌, ◌<◌, ◌≤◌, leb, length, MatchOption};
ghost use Rattle.octets.specs.Choice.{pick};
ghost use Rattle.wire.specs.Legal.{Bytes};
ghost use Rattle.stocks.specs.Limits.{symbol_size, place_size};
ghost use Rattle.stocks.specs.Ranks.{rank_at, LastNotAbove};
ghost use Rattle.stocks.specs.Stocks.{list_good, places_in, place_of, standing_in};

use crate::places::{PLACE_SIZE, SYMBOL_SIZE, rank, rank_at};
use crate::standing::Standing;

// So many halvings bring 2,000 places down to one. Always as many: a loop of a known length has no branch that depends on the list.
const HALVINGS: usize = 11;

// The bytes of a right list. Whoever makes one shows that they are, as whoever has judged them can; whoever is handed one need not ask.
#[derive(Clone, Copy)]
pub struct Listed<'a> {
    pub bytes: &'a [u8],
    ghost are_bytes: { Bytes bytes.now },
    ghost good: { list_good bytes.now ≡ true },
}

#[tactic(auto, unfolding(crate::specs::Stocks::places_in))]
impl Listed<'_> {
    fn places(&self) -> usize
        ensures { result ≡ places_in self.now.bytes.now }
    {
        self.bytes.len() / PLACE_SIZE
    }

    // The base after a halving: half a size on where the place there is not above the symbol.
    fn moved(&self, symbol: u64, base: usize, half: usize) -> usize
        requires { base + half < places_in self.now.bytes.now }
        ensures { result ≡ pick (leb (rank_at self.now.bytes.now (base + half)) symbol) (base + half) base }
    {
        let middle = base + half;
        if rank_at(self.bytes, middle) <= symbol {
            middle
        } else {
            base
        }
    }

    // The last place that is not above the symbol; the first where all are above it.
    fn last_not_above(&self, symbol: u64) -> usize
        requires { 0 < places_in self.now.bytes.now }
        ensures { LastNotAbove self.now.bytes.now symbol (places_in self.now.bytes.now) result }
    {
        let mut base = 0;
        let mut size = self.places();
        for _ in 0..HALVINGS {
            let half = size / 2;
            base = self.moved(symbol, base, half);
            size -= half;
        }
        base
    }

    // The symbol's place, where one has it.
    pub(crate) fn place_of(&self, symbol: [u8; 8]) -> Option<usize>
        ensures { MatchOption result (place_of self.now.bytes.now symbol ≡ places_in self.now.bytes.now) (λ i. (i ≡ place_of self.now.bytes.now symbol) × (i < places_in self.now.bytes.now)) }
    {
        if self.places() == 0 {
            return None;
        }
        let wanted = rank(symbol);
        let i = self.last_not_above(wanted);
        if rank_at(self.bytes, i) == wanted {
            Some(i)
        } else {
            None
        }
    }

    pub fn standing(&self, symbol: [u8; 8]) -> Standing
        ensures { result ≡ standing_in self.now.bytes.now symbol }
    {
        match self.place_of(symbol) {
            Some(i) if self.bytes[PLACE_SIZE * i + SYMBOL_SIZE] == b'H' => Standing::Halted,
            Some(_) => Standing::Trading,
            None => Standing::Unlisted,
        }
    }
}

// The same for who holds the bytes, as the C door does.
pub fn standing(list: &[u8], symbol: [u8; 8]) -> Standing
    requires { list_good list.now ≡ true }
    ensures { result ≡ standing_in list.now symbol }
{
    Listed { bytes: list }.standing(symbol)
}
