// O: an order is entered. The first fault, in the paper's order, gives the letter of its Rejected Message.
ghost use Rattle.std.specs.Prelude.{◌≡◌};
ghost use Rattle.rules.specs.Enter.{bad_display, bad_shares, bad_minimum, fault_of_numbers, bad_stock, enter_fault, accepted_terms, entered_kept, entered_order, enter_rule};

use crate::plan::{Decision, accepting, rejecting};
use answers::Refusal;
use header::firms::{firm_blocked, is_listed, meant_firm};
use header::{Header, is_open_day};
use inbound::enter_order::EnterOrder;
use orders::counts::{new_counts, open_shares};
use orders::order::{Details, Kept, Order, Terms, is_used};
use stocks::standing::{Standing, is_halted};
use wire::letters::{is_capacity, is_cross, is_display};
use wire::price::Price;
use wire::shares::{Removed, Total};
use wire::text::is_shaped;

// A time in force of 99,999 or above is a special value, and stored as 99,999.
pub const LONGEST_TIME: u32 = 99_999;

// The faults that a replacement may have too are asked in functions of their own.
pub(crate) fn bad_display(display: u8, cross: u8) -> bool
    ensures { result ≡ bad_display display cross }
{
    !is_display(display) | ((display == b'I') & (cross == b'N'))
}

pub(crate) fn bad_shares(h: Header, shares: Total) -> bool
    ensures { result ≡ bad_shares h shares }
{
    (shares == Total(0)) | (h.threshold <= shares)
}

pub(crate) fn bad_minimum(minimum: Removed, time: u32, shares: Removed) -> bool
    ensures { result ≡ bad_minimum minimum time shares }
{
    ((minimum > Removed(0)) & (time != 0)) | (minimum > shares)
}

fn bad_stock(stock: &[u8; 8], standing: Standing) -> bool
    ensures { result ≡ bad_stock stock.now standing }
{
    !(is_shaped(stock) & stocks::standing::is_listed(standing))
}

// X, Z and N, or the price. A fault stays the letter that the message carries, and of which the laws speak. Of an order as entered all shares are
// open.
fn fault_of_numbers(h: Header, e: EnterOrder) -> Result<Price, u8>
    ensures { result ≡ fault_of_numbers h e }
{
    let price = Price::new(e.price, e.cross).ok_or(b'X')?;
    if bad_shares(h, e.shares) {
        return Err(b'Z');
    }
    if bad_minimum(e.minimum, e.time, open_shares(new_counts(e.shares))) {
        return Err(b'N');
    }
    Ok(price)
}

// The letter of the first fault, and else the price, which is one that an order may have.
fn enter_fault(h: Header, firm: [u8; 4], standing: Standing, e: EnterOrder) -> Result<Price, u8>
    ensures { result ≡ enter_fault h firm standing e }
{
    if !is_open_day(h) {
        return Err(b'C');
    }
    if !is_listed(h, firm) {
        return Err(b'L');
    }
    if firm_blocked(h, firm) {
        return Err(b'a');
    }
    if bad_stock(&e.stock, standing) {
        return Err(b'S');
    }
    if is_halted(standing) {
        return Err(b'H');
    }
    if !is_cross(e.cross) {
        return Err(b'R');
    }
    if bad_display(e.display, e.cross) {
        return Err(b'D');
    }
    fault_of_numbers(h, e)
}

// What O and U bring anew.
pub(crate) fn accepted_terms(
    price: Price,
    time: u32,
    display: u8,
    sweep: u8,
    minimum: Removed,
) -> Terms
    ensures { result ≡ accepted_terms price time display sweep minimum }
{
    Terms {
        price: price.0,
        time: time.min(LONGEST_TIME),
        display,
        sweep,
        minimum,
    }
}

fn entered_kept(firm: [u8; 4], e: EnterOrder) -> Kept
    ensures { result ≡ entered_kept firm e }
{
    // the borrow checker takes an array into a literal by a variable alone, here and below
    let stock = e.stock;
    let capacity = if is_capacity(e.capacity) {
        e.capacity
    } else {
        b'O'
    };
    Kept {
        stock,
        firm,
        capacity,
        cross: e.cross,
    }
}

fn entered_order(h: Header, firm: [u8; 4], e: EnterOrder, price: Price) -> Order
    ensures { result ≡ entered_order h firm e price }
{
    let token = e.token;
    Order {
        state: b'L',
        token,
        side: e.side,
        shares: new_counts(e.shares),
        flags: 0,
        details: Details {
            kept: entered_kept(firm, e),
            terms: accepted_terms(price, e.time, e.display, e.sweep, e.minimum),
            reference: h.reference,
            previous: [0u8; 14],
            spare: 0,
        },
    }
}

// `found` is what the entry's token means so far, `standing` how its stock stands.
pub fn enter(h: Header, found: Order, standing: Standing, e: EnterOrder) -> Decision
    ensures { result ≡ enter_rule h found standing e }
{
    if is_used(found) {
        return Err(Refusal::Ignored);
    }
    let firm = meant_firm(h, e.firm);
    match enter_fault(h, firm, standing, e) {
        Ok(price) => accepting(entered_order(h, firm, e, price)),
        Err(reason) => rejecting(e.token, reason),
    }
}
