// The checks that every entry about an order goes through, in the order of the answer numbers: 5, then 7, then 6.
ghost use Rattle.std.specs.Prelude.{◌≡◌};
ghost use Rattle.market.specs.Guards.{market_answer};

use answers::{Answer, Refusal};
use orders::order::{Order, is_live};

// Whether the moment and the shares are right is what the kinds differ in.
pub(crate) fn market_answer(o: Order, moment: bool, shares: bool) -> Answer
    ensures { result ≡ market_answer o moment shares }
{
    if !is_live(o) {
        return Err(Refusal::NotLive);
    }
    if !moment {
        return Err(Refusal::WrongMoment);
    }
    if !shares {
        return Err(Refusal::WrongShares);
    }
    Ok(())
}
