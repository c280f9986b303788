// An order: what a record of the table holds. Every one of its 80 bytes is in it, so that storing what was read changes nothing.
ghost use Rattle.std.specs.Prelude.{◌≡◌};
ghost use Rattle.orders.specs.Order.{no_order, is_live, is_used, ◌is◌, marked, cleared, dead_if_spent, with_side, with_flags, with_details, killed, rejected_order};

use crate::counts::{Counts, cut, new_counts, open_shares};
use crate::flags::{Flag, clear_flag, has_flag, set_flag};
use wire::shares::{Removed, Total};

// What a replacement takes from the order that it replaces, beside the side.
#[derive(Clone, Copy)]
pub struct Kept {
    pub stock: [u8; 8],
    pub firm: [u8; 4],
    pub capacity: u8,
    pub cross: u8,
}

// What a replacement brings anew, beside the shares. The price is a number: a record is not judged for it, so it need not be a `Price`.
#[derive(Clone, Copy)]
pub struct Terms {
    pub price: u32,
    pub time: u32,
    pub display: u8,
    pub sweep: u8,
    pub minimum: Removed,
}

// What most rules only carry. `spare` is byte 79, which nobody judges in a live or dead record.
#[derive(Clone, Copy)]
pub struct Details {
    pub kept: Kept,
    pub terms: Terms,
    pub reference: u64,
    pub previous: [u8; 14],
    pub spare: u8,
}

// The letters stay letters: a record holds every byte as it came, in a damaged table too (`order_of`).
#[derive(Clone, Copy)]
pub struct Order {
    pub state: u8,
    pub token: [u8; 14],
    pub side: u8,
    pub shares: Counts,
    pub flags: u8,
    pub details: Details,
}

// What stands for a token that no record has. It is no `Option`: a record that is not used has state 0 as well, and `is_used` asks both alike in the
// rules' definitions and the theorems of the day.
// By hand and not by `Default`: of the runs of bytes that says each byte, and that they are the zeros of the specs does not close.
pub fn no_order() -> Order
    ensures { result ≡ no_order }
{
    Order {
        state: 0,
        token: [0; 14],
        side: 0,
        shares: new_counts(Total(0)),
        flags: 0,
        details: Details {
            kept: Kept {
                stock: [0; 8],
                firm: [0; 4],
                capacity: 0,
                cross: 0,
            },
            terms: Terms {
                price: 0,
                time: 0,
                display: 0,
                sweep: 0,
                minimum: Removed(0),
            },
            reference: 0,
            previous: [0; 14],
            spare: 0,
        },
    }
}

// What a Rejected Message leaves in the table, so that its token is used.
pub fn rejected_order(token: [u8; 14]) -> Order
    ensures { result ≡ rejected_order token }
{
    Order {
        state: b'R',
        token,
        ..no_order()
    }
}

pub fn is_live(o: Order) -> bool
    ensures { result ≡ is_live o }
{
    o.state == b'L'
}

pub fn is_used(o: Order) -> bool
    ensures { result ≡ is_used o }
{
    o.state != 0
}

// Whether the order is late, is pending, or was sent a Cancel Reject.
pub fn is(o: Order, flag: Flag) -> bool
    ensures { result ≡ (o is flag) }
{
    has_flag(o.flags, flag)
}

fn with_flags(o: Order, flags: u8) -> Order
    ensures { result ≡ with_flags o flags }
{
    Order { flags, ..o }
}

pub fn marked(o: Order, flag: Flag) -> Order
    ensures { result ≡ marked o flag }
{
    with_flags(o, set_flag(o.flags, flag))
}

pub fn cleared(o: Order, flag: Flag) -> Order
    ensures { result ≡ cleared o flag }
{
    with_flags(o, clear_flag(o.flags, flag))
}

pub fn with_side(o: Order, side: u8) -> Order
    ensures { result ≡ with_side o side }
{
    Order { side, ..o }
}

pub fn with_details(o: Order, details: Details) -> Order
    ensures { result ≡ with_details o details }
{
    Order { details, ..o }
}

// The order with these counts. An order whose open reaches 0 is dead: every rule that changes counts does it here.
#[tactic(auto, unfolding(crate::specs::Order::dead_if_spent))]
pub fn dead_if_spent(o: Order, shares: Counts) -> Order
    ensures { result ≡ dead_if_spent o shares }
{
    let state = if open_shares(shares) == Removed(0) {
        b'D'
    } else {
        o.state
    };
    Order { state, shares, ..o }
}

// All that is open is cut off. What is gone of the order is all that it is liable for then, so it is dead.
pub fn killed(o: Order) -> Order
    ensures { result ≡ killed o }
{
    dead_if_spent(o, cut(o.shares, open_shares(o.shares)))
}
