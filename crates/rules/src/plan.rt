// What a rule decides: a plan, or why the entry is refused. The rules know neither bytes nor the ring: a plan is values only.
ghost use Rattle.std.specs.Prelude.{◌≡◌};
ghost use Rattle.rules.specs.Plan.{empty_plan, changing, renumbering, accepting, replacing, rejecting, beginning, blocking, setting};

use answers::Refusal;
use orders::order::{Order, no_order, rejected_order};
use tape::entry::{Execution, SelfMatch, StockState};
use wire::shares::Removed;

// What is told, beside the stamp and what the plan's orders hold. That nothing is told is a notice too: each plan has one, by whose cases the laws'
// `Shape` and `subject` and the day's `tells` go.
#[derive(Clone, Copy)]
pub enum Notice {
    Silent,
    SystemEvent(u8),
    Accepted,
    Replaced,
    Canceled(Removed, u8),
    AiqCancelled(SelfMatch),
    Executed(Execution),
    Rejected(u8),
    CancelPending,
    CancelReject,
    PriorityUpdate,
    Modified,
}

// What begins, where something does.
#[derive(Clone, Copy)]
pub enum Begins {
    // the day's number in the header from now on
    Day(u8),
    // a firm's place in the header's list, and whether it is blocked from now on
    Block(usize, bool),
}

// All that a done entry changes beside the last stamp. An order of state 0 stands for none: so the message reads the orders straight, and the laws'
// `Shape`, `Changed` and `Born` and the day's chains speak of both in every plan.
#[derive(Clone, Copy)]
pub struct Plan {
    pub begins: Option<Begins>,
    // the order that the entry names, as it is afterwards; none if it stays as it is
    pub changed: Order,
    // what the first free record holds afterwards; none if it stays free
    pub added: Order,
    // the order above has taken the next reference
    pub numbered: bool,
    pub notice: Notice,
    // a listed stock and its state from now on; none if every stock stays as it is
    pub stock: Option<StockState>,
}

// A refusal has no plan, so nobody can carry out what was refused.
pub type Decision = Result<Plan, Refusal>;

// Nothing changes and nothing is told. Each plan below says in what it differs from this one.
fn empty_plan() -> Plan
    ensures { result ≡ empty_plan }
{
    Plan {
        begins: None,
        changed: no_order(),
        added: no_order(),
        numbered: false,
        notice: Notice::Silent,
        stock: None,
    }
}

pub fn changing(o: Order, notice: Notice) -> Decision
    ensures { result ≡ changing o notice }
{
    Ok(Plan {
        changed: o,
        notice,
        ..empty_plan()
    })
}

pub fn renumbering(o: Order, notice: Notice) -> Decision
    ensures { result ≡ renumbering o notice }
{
    Ok(Plan {
        changed: o,
        numbered: true,
        notice,
        ..empty_plan()
    })
}

pub fn accepting(new: Order) -> Decision
    ensures { result ≡ accepting new }
{
    Ok(Plan {
        added: new,
        numbered: true,
        notice: Notice::Accepted,
        ..empty_plan()
    })
}

pub fn replacing(old: Order, new: Order) -> Decision
    ensures { result ≡ replacing old new }
{
    Ok(Plan {
        changed: old,
        added: new,
        numbered: true,
        notice: Notice::Replaced,
        ..empty_plan()
    })
}

// The token is used up, and what is rejected takes no reference.
pub fn rejecting(token: [u8; 14], reason: u8) -> Decision
    ensures { result ≡ rejecting token reason }
{
    Ok(Plan {
        added: rejected_order(token),
        notice: Notice::Rejected(reason),
        ..empty_plan()
    })
}

pub fn beginning(day: u8, event: u8) -> Decision
    ensures { result ≡ beginning day event }
{
    Ok(Plan {
        begins: Some(Begins::Day(day)),
        notice: Notice::SystemEvent(event),
        ..empty_plan()
    })
}

// A firm is blocked or let in again, and nothing is told of it.
pub fn blocking(place: usize, on: bool) -> Decision
    ensures { result ≡ blocking place on }
{
    Ok(Plan {
        begins: Some(Begins::Block(place, on)),
        ..empty_plan()
    })
}

// A stock's state is set, and nothing is told of it.
pub fn setting(e: StockState) -> Decision
    ensures { result ≡ setting e }
{
    Ok(Plan {
        stock: Some(e),
        ..empty_plan()
    })
}
