// l f: an order is late for its cross, until the cross is done.
ghost use Rattle.std.specs.Prelude.{◌≡◌};
ghost use Rattle.market.specs.Cross.{late_rule, cross_done, cross_done_rule};

use crate::guards::market_answer;
use header::{Header, is_open_day};
use orders::counts::open_shares;
use orders::flags::Flag;
use orders::order::{Order, cleared, is, killed, marked};
use rules::plan::{Decision, Notice, changing};

pub fn late(h: Header, o: Order) -> Decision
    ensures { result ≡ late_rule h o }
{
    let moment = is_open_day(h) & (o.details.kept.cross != b'N') & !is(o, Flag::Late);
    market_answer(o, moment, true)?;
    changing(marked(o, Flag::Late), Notice::Silent)
}

// Of a late order: a cancel that waited takes all that is open.
fn cross_done_of(o: Order) -> Decision
    ensures { result ≡ cross_done o }
{
    let on_time = cleared(o, Flag::Late);
    if is(o, Flag::Pending) {
        let by = open_shares(o.shares);
        let end = killed(cleared(on_time, Flag::Pending));
        return changing(end, Notice::Canceled(by, b'U'));
    }
    changing(on_time, Notice::Silent)
}

pub fn cross_done(o: Order) -> Decision
    ensures { result ≡ cross_done_rule o }
{
    market_answer(o, is(o, Flag::Late), true)?;
    cross_done_of(o)
}
