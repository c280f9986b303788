// d n: a firm is blocked, or let in again.
ghost use Rattle.std.specs.Prelude.{◌≡◌};
ghost use Rattle.risk.specs.Blocking.{blocking_rule};

use answers::Refusal;
use header::Header;
use header::firms::{firm_place, is_listed};
use rules::plan::{Decision, blocking};
use tape::entry::Blocking;

// A firm may be blocked on any day, and twice.
pub fn block(h: Header, e: Blocking, on: bool) -> Decision
    ensures { result ≡ blocking_rule h e on }
{
    if !is_listed(h, e.firm) {
        return Err(Refusal::UnlistedFirm);
    }
    blocking(firm_place(h, e.firm), on)
}
