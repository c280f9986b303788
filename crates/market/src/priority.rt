// p: an order gets another price, and with it another reference.
ghost use Rattle.std.specs.Prelude.{◌≡◌};
ghost use Rattle.market.specs.Priority.{prioritised_order, priority_rule};

use crate::guards::market_answer;
use header::{Header, is_open_day};
use orders::order::{Details, Order, Terms, with_details};
use rules::plan::{Decision, Notice, renumbering};
use tape::entry::Priority;

fn prioritised_order(h: Header, o: Order, e: Priority) -> Order
    ensures { result ≡ prioritised_order h o e }
{
    let terms = Terms {
        price: e.price,
        display: b'Y',
        ..o.details.terms
    };
    let details = Details {
        terms,
        reference: h.reference,
        ..o.details
    };
    with_details(o, details)
}

pub fn priority(h: Header, o: Order, e: Priority) -> Decision
    ensures { result ≡ priority_rule h o e }
{
    market_answer(o, is_open_day(h), true)?;
    renumbering(prioritised_order(h, o, e), Notice::PriorityUpdate)
}
