// e c q: shares are executed, canceled by the book, or taken off to prevent a self match.
ghost use Rattle.std.specs.Prelude.{◌≡◌};
ghost use Rattle.market.specs.Taken.{shares_right, execution_rule, book_cancel_rule, self_match_rule};

use crate::guards::market_answer;
use header::{Header, is_open_day};
use orders::counts::{cut, executing, open_shares, self_matching};
use orders::order::{Order, dead_if_spent};
use rules::plan::{Decision, Notice, changing};
use tape::entry::{BookCancel, Execution, SelfMatch};
use wire::shares::Removed;

fn shares_right(o: Order, shares: Removed) -> bool
    ensures { result ≡ shares_right o shares }
{
    !((shares == Removed(0)) | (shares > open_shares(o.shares)))
}

#[tactic(auto, using(crate::proofs::Room::takes), unfolding(crate::proofs::Opened::opened))]
pub fn execution(h: Header, o: Order, e: Execution) -> Decision
    ensures { result ≡ execution_rule h o e }
{
    market_answer(o, is_open_day(h), shares_right(o, e.shares))?;
    let counts = executing(o.shares, e.shares);
    changing(dead_if_spent(o, counts), Notice::Executed(e))
}

// The book may cancel on any day.
pub fn book_cancel(o: Order, e: BookCancel) -> Decision
    ensures { result ≡ book_cancel_rule o e }
{
    market_answer(o, true, shares_right(o, e.shares))?;
    let counts = cut(o.shares, e.shares);
    changing(
        dead_if_spent(o, counts),
        Notice::Canceled(e.shares, e.reason),
    )
}

#[tactic(auto, using(crate::proofs::Room::takes), unfolding(crate::proofs::Opened::opened))]
pub fn self_match(h: Header, o: Order, e: SelfMatch) -> Decision
    ensures { result ≡ self_match_rule h o e }
{
    market_answer(o, is_open_day(h), shares_right(o, e.shares))?;
    let counts = self_matching(o.shares, e.shares);
    changing(dead_if_spent(o, counts), Notice::AiqCancelled(e))
}
