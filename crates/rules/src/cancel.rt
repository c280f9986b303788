// X: an order is cut down to an intended size. The size is a total that limits executions; the decrement that is told is a removed number.
ghost use Rattle.std.specs.Prelude.{◌≡◌, ◌<◌};
ghost use Rattle.orders.specs.Counts.{open_shares};
ghost use Rattle.rules.specs.Cancel.{new_open, cancel_ignored, decrement, canceled_order, late_cancel, cancel_rule};

use crate::plan::{Decision, Notice, changing};
use answers::Refusal;
use inbound::cancel_order::CancelOrder;
use orders::counts::{cut, open_shares};
use orders::flags::Flag;
use orders::order::{Order, dead_if_spent, is, is_live, marked};
use wire::shares::{Removed, Total};

// What this size leaves open. It limits executions, and shares lost to self match are none: so executed alone is taken off.
fn new_open(o: Order, size: Total) -> Removed
    ensures { result ≡ new_open o size }
{
    size.less(o.shares.executed)
}

fn cancel_ignored(o: Order, size: Total) -> bool
    ensures { result ≡ cancel_ignored o size }
{
    let present = open_shares(o.shares);
    !is_live(o) | (present <= new_open(o, size)) | is(o, Flag::Pending)
}

fn decrement(o: Order, size: Total) -> Removed
    ensures { result ≡ decrement o size }
{
    let present = open_shares(o.shares);
    present.minus(new_open(o, size))
}

// Liable falls by the decrement. What is left of it is executed, self-matched and the new open, which need not be added up.
#[tactic(auto, unfolding(orders::specs::Counts::cut, orders::specs::Counts::open_shares, crate::proofs::Opened::opened))]
fn canceled_order(o: Order, size: Total) -> Order
    requires { (new_open o size).0 < (open_shares o.shares).0 }
    ensures { result ≡ canceled_order o size }
{
    dead_if_spent(o, cut(o.shares, decrement(o, size)))
}

// While the order is late for its cross a cancel of all of it waits, and any other is told off once.
fn late_cancel(o: Order, size: Total) -> Decision
    ensures { result ≡ late_cancel o size }
{
    if size == Total(0) {
        return changing(marked(o, Flag::Pending), Notice::CancelPending);
    }
    if is(o, Flag::RejectSent) {
        return Err(Refusal::Ignored);
    }
    changing(marked(o, Flag::RejectSent), Notice::CancelReject)
}

pub fn cancel(o: Order, e: CancelOrder) -> Decision
    ensures { result ≡ cancel_rule o e }
{
    if cancel_ignored(o, e.size) {
        return Err(Refusal::Ignored);
    }
    if is(o, Flag::Late) {
        return late_cancel(o, e.size);
    }
    let by = decrement(o, e.size);
    changing(canceled_order(o, e.size), Notice::Canceled(by, b'U'))
}
