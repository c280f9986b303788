// Writing a plan down, in the table and in the list of stocks: no other function of a step changes them.
ghost use Rattle.std.specs.Prelude.{◌≡◌, true, ◌+◌, ◌≤◌};
ghost use Rattle.header.specs.Limits.{end_of_references};
ghost use Rattle.stocks.specs.Stocks.{list_good};
ghost use Rattle.table.specs.Limits.{most_records};
ghost use Rattle.table.specs.Table.{header};
ghost use Rattle.host.specs.Step.{day_after, blocked_after, store_if, set_if, header_after, committed};

use header::Header;
use header::firms::blocked_with;
use orders::order::{Order, is_used};
use rules::plan::{Begins, Plan};
use stocks::set::set_state;
use table::places::store_header;
use table::store::store_order;
use tape::entry::StockState;

// An order of state 0 stands for none, and nothing is stored.
fn store_if(table: &mut [u8], i: usize, o: Order)
    ensures { table.new ≡ store_if table.old i o }
{
    if is_used(o) {
        store_order(table, i, o);
    }
}

// The day that begins, or the day as it is.
fn day_after(day: u8, begins: Option<Begins>) -> u8
    ensures { result ≡ day_after day begins }
{
    match begins {
        Some(Begins::Day(begun)) => begun,
        Some(Begins::Block(_, _)) | None => day,
    }
}

// The blocked firms' bits, with that of a firm that is blocked or let in again.
fn blocked_after(h: Header, begins: Option<Begins>) -> u8
    ensures { result ≡ blocked_after h begins }
{
    match begins {
        Some(Begins::Block(place, on)) => blocked_with(h, place, on),
        Some(Begins::Day(_)) | None => h.blocked,
    }
}

// The header after a done entry: its stamp, and what the plan begins, uses and takes. The limits are a clause: a header is read from any table, sound or
// not, so its type can't have them.
fn header_after(h: Header, stamp: u64, plan: Plan) -> Header
    requires { (h.used ≤ most_records) × (h.reference ≤ end_of_references) }
    ensures { result ≡ header_after h stamp plan }
{
    Header {
        day: day_after(h.day, plan.begins),
        blocked: blocked_after(h, plan.begins),
        used: h.used + u32::from(is_used(plan.added)),
        last: stamp,
        reference: h.reference + u64::from(plan.numbered),
        ..h
    }
}

// The named order in its own record, the added one behind the used records, and the header.
pub(crate) fn commit(table: &mut [u8], h: Header, place: usize, stamp: u64, plan: Plan)
    requires { (h ≡ header table.old) × ((h.used ≤ most_records) × (h.reference ≤ end_of_references)) }
    ensures { table.new ≡ committed table.old place stamp plan }
{
    store_if(table, place, plan.changed);
    store_if(table, h.used as usize, plan.added);
    store_header(table, header_after(h, stamp, plan));
}

// The state of a stock, where there is one.
pub(crate) fn set_if(stocks: &mut [u8], stock: Option<StockState>)
    requires { list_good stocks.old ≡ true }
    ensures { stocks.new ≡ set_if stocks.old stock }
{
    if let Some(stock) = stock {
        set_state(stocks, stock.symbol, stock.state);
    }
}
