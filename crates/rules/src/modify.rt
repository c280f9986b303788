// M: the side of an order is changed, or its shares are cut. What would change nothing is ignored.
ghost use Rattle.std.specs.Prelude.{◌≡◌};
ghost use Rattle.rules.specs.Modify.{side_allowed, modified_order, modify_ignored, modify_rule};

use crate::plan::{Decision, Notice, changing};
use answers::Refusal;
use header::{Header, is_open_day};
use inbound::modify_order::ModifyOrder;
use orders::counts::{gone_is_below, with_liable};
use orders::flags::Flag;
use orders::order::{Order, dead_if_spent, is, is_live, with_side};
use wire::letters::is_sell_side;

fn side_allowed(before: u8, after: u8) -> bool
    ensures { result ≡ side_allowed before after }
{
    (before == after) | (is_sell_side(before) & is_sell_side(after))
}

fn modify_ignored(h: Header, o: Order, e: ModifyOrder) -> bool
    ensures { result ≡ modify_ignored h o e }
{
    !is_live(o)
        | !is_open_day(h)
        | is(o, Flag::Late)
        | !side_allowed(o.side, e.side)
        | !gone_is_below(o.shares, e.shares)
        | (o.shares.liable < e.shares)
        | ((o.side == e.side) & (o.shares.liable == e.shares))
}

fn modified_order(o: Order, e: ModifyOrder) -> Order
    ensures { result ≡ modified_order o e }
{
    dead_if_spent(with_side(o, e.side), with_liable(o.shares, e.shares))
}

pub fn modify(h: Header, o: Order, e: ModifyOrder) -> Decision
    ensures { result ≡ modify_rule h o e }
{
    if modify_ignored(h, o, e) {
        return Err(Refusal::Ignored);
    }
    changing(modified_order(o, e), Notice::Modified)
}
