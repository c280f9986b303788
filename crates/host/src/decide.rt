// What an entry comes to, from the table, the list of stocks and the entry alone: no function here is given the ring.
ghost use Rattle.std.specs.Prelude.{◌≡◌, true};
ghost use Rattle.stocks.specs.Stocks.{standing_in};
ghost use Rattle.table.specs.Table.{header, order_named};
ghost use Rattle.tape.specs.Kinds.{kind_of};
ghost use Rattle.tape.specs.Entries.{well_formed, replace_of};
ghost use Rattle.rules.specs.Enter.{enter_rule};
ghost use Rattle.rules.specs.Replace.{replace_rule};
ghost use Rattle.market.specs.Halt.{halt_rule};
ghost use Rattle.host.specs.Step.{books, named_place, decide_by, decide, within_limits};

use answers::Refusal;
use header::{END_OF_REFERENCES, Header};
use inbound::enter_order::EnterOrder;
use inbound::replace_order::ReplaceOrder;
use market::cross::{cross_done, late};
use market::day::system;
use market::halt::halt;
use market::priority::priority;
use market::taken::{book_cancel, execution, self_match};
use orders::order::{Order, is_used};
use risk::blocking::block;
use risk::purging::purge;
use rules::cancel::cancel;
use rules::enter::enter;
use rules::modify::modify;
use rules::plan::Decision;
use rules::replace::replace;
use stocks::find::Listed;
use table::find::{find, order_from};
use table::places::records_in;
use tape::entry::StockState;
use tape::kinds::{Kind, kind_of};
use tape::reading::{
    blocking_of, book_cancel_of, cancel_of, enter_of, execution_of, modify_of, priority_of,
    purge_of, replace_of, self_match_of, stock_state_of, system_of,
};

// What a legal entry in time comes to. `place` is where the order stands that it names.
pub(crate) fn comes_to(
    table: &[u8],
    stocks: Listed,
    entry: &[u8],
    h: Header,
    place: usize,
) -> Decision
    requires { (well_formed entry.now ≡ true) × ((h ≡ header table.now) × (place ≡ named_place table.now entry.now)) }
    ensures { result ≡ within_limits table.now (decide (books table.now stocks.entry.bytes.now) entry.now) }
{
    let named = order_from(table, place);
    within_limits(table, h, decide(table, stocks, entry, h, named))
}

// The rule of the entry's kind. `named` is the order that the entry names.
#[tactic(auto, using(tape::proofs::Formed::long_as), unfolding(crate::proofs::Opened::opened))]
fn decide(table: &[u8], stocks: Listed, entry: &[u8], h: Header, named: Order) -> Decision
    requires { well_formed entry.now ≡ true }
    ensures { result ≡ decide_by (kind_of entry.now) h named (order_named table.now (replace_of entry.now).replacement) stocks.entry.bytes.now entry.now }
{
    match kind_of(entry) {
        Kind::Enters => decide_enter(stocks, h, named, enter_of(entry)),
        Kind::Replaces => decide_replace(table, stocks, h, named, replace_of(entry)),
        Kind::Cancels => cancel(named, cancel_of(entry)),
        Kind::Modifies => modify(h, named, modify_of(entry)),
        Kind::Executes => execution(h, named, execution_of(entry)),
        Kind::BookCancels => book_cancel(named, book_cancel_of(entry)),
        Kind::SelfMatches => self_match(h, named, self_match_of(entry)),
        Kind::Prioritises => priority(h, named, priority_of(entry)),
        Kind::TurnsLate => late(h, named),
        Kind::EndsCross => cross_done(named),
        Kind::TellsDay => system(h, system_of(entry)),
        Kind::SetsStock => decide_halt(stocks, stock_state_of(entry)),
        Kind::Purges => purge(h, named, purge_of(entry)),
        Kind::Disables => block(h, blocking_of(entry), true),
        Kind::Enables => block(h, blocking_of(entry), false),
        Kind::Unknown => Err(Refusal::Malformed),
    }
}

fn decide_enter(stocks: Listed, h: Header, named: Order, e: EnterOrder) -> Decision
    ensures { result ≡ enter_rule h named (standing_in stocks.entry.bytes.now e.stock) e }
{
    enter(h, named, stocks.standing(e.stock), e)
}

// A Replace names two tokens, the existing one and its own, and its stock is that of the order that it replaces.
fn decide_replace(
    table: &[u8],
    stocks: Listed,
    h: Header,
    named: Order,
    e: ReplaceOrder,
) -> Decision
    ensures { result ≡ replace_rule h named (order_named table.now e.replacement) (standing_in stocks.entry.bytes.now named.details.kept.stock) e }
{
    let found = order_from(table, find(table, e.replacement));
    let standing = stocks.standing(named.details.kept.stock);
    replace(h, named, found, standing, e)
}

fn decide_halt(stocks: Listed, e: StockState) -> Decision
    ensures { result ≡ halt_rule (standing_in stocks.entry.bytes.now e.symbol) e }
{
    halt(stocks.standing(e.symbol), e)
}

// 8: a token must be stored and no record is free, or a reference is needed and none is left. Asked of the plan, so that no rule asks it.
fn within_limits(table: &[u8], h: Header, d: Decision) -> Decision
    requires { h ≡ header table.now }
    ensures { result ≡ within_limits table.now d }
{
    let plan = d?;
    let no_record = is_used(plan.added) & (records_in(table) <= h.used as usize);
    let no_reference = plan.numbered & (h.reference == END_OF_REFERENCES);
    if no_record | no_reference {
        return Err(Refusal::Full);
    }
    Ok(plan)
}
