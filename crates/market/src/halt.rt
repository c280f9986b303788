// h: a stock is halted, or trades again.
ghost use Rattle.std.specs.Prelude.{◌≡◌};
ghost use Rattle.market.specs.Halt.{halt_rule};

use answers::Refusal;
use rules::plan::{Decision, setting};
use stocks::standing::{Standing, is_listed};
use tape::entry::StockState;

// A stock may be halted on any day, and twice.
pub fn halt(standing: Standing, e: StockState) -> Decision
    ensures { result ≡ halt_rule standing e }
{
    if !is_listed(standing) {
        return Err(Refusal::NotLive);
    }
    setting(e)
}
