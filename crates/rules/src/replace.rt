// U: a live order is replaced by another under a new token. The Shares sent in are a total: what is gone of the chain counts against them.
ghost use Rattle.std.specs.Prelude.{◌≡◌};
ghost use Rattle.rules.specs.Replace.{bad_beside_price, replacement_order, canceled_whole, replace_open, replace_rule};

use crate::enter::{accepted_terms, bad_display, bad_minimum, bad_shares};
use crate::plan::{Decision, Notice, changing, rejecting, replacing};
use answers::Refusal;
use header::{Header, is_open_day};
use inbound::replace_order::ReplaceOrder;
use orders::counts::{gone_is_below, less_gone, open_shares, with_liable};
use orders::flags::Flag;
use orders::order::{Details, Order, is, is_live, is_used, killed};
use stocks::standing::{Standing, is_halted};
use wire::price::Price;

fn bad_beside_price(h: Header, old: Order, e: ReplaceOrder) -> bool
    ensures { result ≡ bad_beside_price h old e }
{
    let new_open = less_gone(e.shares, old.shares);
    bad_shares(h, e.shares)
        | !gone_is_below(old.shares, e.shares)
        | bad_display(e.display, old.details.kept.cross)
        | bad_minimum(e.minimum, e.time, new_open)
}

fn replacement_order(h: Header, old: Order, e: ReplaceOrder, price: Price) -> Order
    ensures { result ≡ replacement_order h old e price }
{
    // the borrow checker takes an array into a literal by a variable alone
    let token = e.replacement;
    let previous = e.existing;
    Order {
        state: b'L',
        token,
        side: old.side,
        shares: with_liable(old.shares, e.shares),
        flags: 0,
        details: Details {
            kept: old.details.kept,
            terms: accepted_terms(price, e.time, e.display, e.sweep, e.minimum),
            reference: h.reference,
            previous,
            spare: 0,
        },
    }
}

// All that is open is canceled. A replacement with bad details comes to this, and its own token stays free; so does a purge.
pub fn canceled_whole(old: Order) -> Decision
    ensures { result ≡ canceled_whole old }
{
    let by = open_shares(old.shares);
    changing(killed(old), Notice::Canceled(by, b'U'))
}

// Of a live order on an open day that is not late, in a stock that is not halted.
fn replace_open(h: Header, old: Order, e: ReplaceOrder) -> Decision
    ensures { result ≡ replace_open h old e }
{
    if bad_beside_price(h, old, e) {
        return canceled_whole(old);
    }
    match Price::new(e.price, old.details.kept.cross) {
        Some(price) => replacing(killed(old), replacement_order(h, old, e, price)),
        None => canceled_whole(old),
    }
}

// `old` is what the existing token means, `found` what the replacement token means so far, `standing` how the old stock stands.
pub fn replace(h: Header, old: Order, found: Order, standing: Standing, e: ReplaceOrder) -> Decision
    ensures { result ≡ replace_rule h old found standing e }
{
    if !is_live(old) | is_used(found) {
        return Err(Refusal::Ignored);
    }
    if !is_open_day(h) {
        return rejecting(e.replacement, b'C');
    }
    if is(old, Flag::Late) {
        return rejecting(e.replacement, b'R');
    }
    if is_halted(standing) {
        return rejecting(e.replacement, b'H');
    }
    replace_open(h, old, e)
}
