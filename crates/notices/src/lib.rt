// The message that a plan sends, in bytes. At most one message goes out for an entry, and none is longer than 80 bytes.
#![tactic(auto)]

ghost use Rattle.std.specs.Prelude.{◌≡◌, []};
ghost use Rattle.notices.specs.Notices.{stated_order, accepted_notice, replaced_notice, canceled_notice, self_match_notice, executed_notice, rejected_notice, priority_notice, modified_notice, notice_bytes, message, sent};

use orders::counts::open_shares;
use orders::order::Order;
use outbound::accepted::Accepted;
use outbound::aiq_cancelled::AiqCancelled;
use outbound::cancel_pending::CancelPending;
use outbound::cancel_reject::CancelReject;
use outbound::canceled::Canceled;
use outbound::executed::Executed;
use outbound::modified::Modified;
use outbound::priority_update::PriorityUpdate;
use outbound::rejected::Rejected;
use outbound::replaced::Replaced;
use outbound::stated::Stated;
use outbound::system_event::SystemEvent;
use rules::plan::{Notice, Plan};
use tape::entry::{Execution, SelfMatch};
use wire::body::{Body, Written};
use wire::shares::Removed;

// A message at the front of 80 bytes; the zeros behind it are not sent. (By value, with its length beside it: the host has no heap.)
#[derive(Clone, Copy)]
pub struct Sent {
    pub bytes: [u8; 80],
    pub len: usize,
}

fn silence() -> Sent
    ensures { result ≡ sent [] }
{
    Sent {
        bytes: [0u8; 80],
        len: 0,
    }
}

// Any of the messages, whole.
fn sent_of<M: Written>(m: M) -> Sent
    ensures { result ≡ sent (M.Written.bytes m) }
{
    Sent {
        bytes: m.spell(),
        len: M::size(),
    }
}

// What Accepted and Replaced state of a new order. (An array goes into a literal by a variable of its own, here and below: the borrow checker asks it.)
fn stated_order(o: Order) -> Stated
    ensures { result ≡ stated_order o }
{
    let stock = o.details.kept.stock;
    let firm = o.details.kept.firm;
    Stated {
        side: o.side,
        shares: open_shares(o.shares),
        stock,
        price: o.details.terms.price,
        time: o.details.terms.time,
        firm,
        display: o.details.terms.display,
        reference: o.details.reference,
        capacity: o.details.kept.capacity,
        sweep: o.details.terms.sweep,
        minimum: o.details.terms.minimum,
        cross: o.details.kept.cross,
        state: o.state,
    }
}

fn accepted_notice(stamp: u64, new: Order) -> Accepted
    ensures { result ≡ accepted_notice stamp new }
{
    let token = new.token;
    Accepted {
        stamp,
        token,
        order: stated_order(new),
        weight: b' ',
    }
}

fn replaced_notice(stamp: u64, new: Order) -> Replaced
    ensures { result ≡ replaced_notice stamp new }
{
    let previous = new.details.previous;
    let token = new.token;
    Replaced {
        stamp,
        token,
        order: stated_order(new),
        previous,
        weight: b' ',
    }
}

fn canceled_notice(stamp: u64, o: Order, decrement: Removed, reason: u8) -> Canceled
    ensures { result ≡ canceled_notice stamp o decrement reason }
{
    let token = o.token;
    Canceled {
        stamp,
        token,
        decrement,
        reason,
    }
}

fn self_match_notice(stamp: u64, o: Order, e: SelfMatch) -> AiqCancelled
    ensures { result ≡ self_match_notice stamp o e }
{
    let token = o.token;
    AiqCancelled {
        stamp,
        token,
        decrement: e.shares,
        reason: b'Q',
        prevented: e.prevented,
        price: e.price,
        flag: e.flag,
    }
}

fn executed_notice(stamp: u64, o: Order, e: Execution) -> Executed
    ensures { result ≡ executed_notice stamp o e }
{
    let token = o.token;
    Executed {
        stamp,
        token,
        shares: e.shares,
        price: e.price,
        flag: e.flag,
        match_number: e.match_number,
    }
}

fn rejected_notice(stamp: u64, new: Order, reason: u8) -> Rejected
    ensures { result ≡ rejected_notice stamp new reason }
{
    let token = new.token;
    Rejected {
        stamp,
        token,
        reason,
    }
}

fn priority_notice(stamp: u64, o: Order) -> PriorityUpdate
    ensures { result ≡ priority_notice stamp o }
{
    let token = o.token;
    PriorityUpdate {
        stamp,
        token,
        price: o.details.terms.price,
        display: o.details.terms.display,
        reference: o.details.reference,
    }
}

fn modified_notice(stamp: u64, o: Order) -> Modified
    ensures { result ≡ modified_notice stamp o }
{
    let token = o.token;
    Modified {
        stamp,
        token,
        side: o.side,
        shares: open_shares(o.shares),
    }
}

// `o` is the changed order, `new` the added one.
fn notice_sent(stamp: u64, o: Order, new: Order, notice: Notice) -> Sent
    ensures { result ≡ sent (notice_bytes stamp o new notice) }
{
    let token = o.token;
    match notice {
        Notice::Silent => silence(),
        Notice::SystemEvent(event) => sent_of(SystemEvent { stamp, event }),
        Notice::Accepted => sent_of(accepted_notice(stamp, new)),
        Notice::Replaced => sent_of(replaced_notice(stamp, new)),
        Notice::Canceled(by, reason) => sent_of(canceled_notice(stamp, o, by, reason)),
        Notice::AiqCancelled(e) => sent_of(self_match_notice(stamp, o, e)),
        Notice::Executed(e) => sent_of(executed_notice(stamp, o, e)),
        Notice::Rejected(reason) => sent_of(rejected_notice(stamp, new, reason)),
        Notice::CancelPending => sent_of(CancelPending { stamp, token }),
        Notice::CancelReject => sent_of(CancelReject { stamp, token }),
        Notice::PriorityUpdate => sent_of(priority_notice(stamp, o)),
        Notice::Modified => sent_of(modified_notice(stamp, o)),
    }
}

pub fn message(stamp: u64, plan: Plan) -> Sent
    ensures { result ≡ sent (message stamp plan) }
{
    notice_sent(stamp, plan.changed, plan.added, plan.notice)
}
