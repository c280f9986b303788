// One step: judge, read, decide, ask for room, write. Nothing is written before the last question is answered, so a refusal changes nothing.
ghost use Rattle.std.specs.Prelude.{◌≡◌, true, ◌≤◌, length, take};
ghost use Rattle.answers.specs.Answer.{Done};
ghost use Rattle.header.specs.Limits.{end_of_references};
ghost use Rattle.outbox.specs.Outbox.{ring_good, free_bytes, ring_with, marks_with};
ghost use Rattle.stocks.specs.Stocks.{list_good};
ghost use Rattle.table.specs.Limits.{most_records};
ghost use Rattle.table.specs.Table.{sound, header};
ghost use Rattle.tape.specs.Entries.{well_formed, entry_answer};
ghost use Rattle.host.specs.Step.{step, offer, settle, carried_out, named_place, world, Leaves};

use crate::commit::{commit, set_if};
use crate::decide::comes_to;
use answers::{Answer, Refusal};
use header::Header;
use notices::message;
use outbox::marks::{Marks, ring_good};
use outbox::put::append;
use risk::purging::wanted_by;
use rules::plan::{Decision, Plan};
use stocks::find::Listed;
use stocks::judge::list_good;
use table::find::find;
use table::places::{header, used};
use table::search::find_wanted;
use table::sound::sound;
use tape::judging::judge;
use tape::reading::{names_order, purge_of, purges, stamp_of, token_of};

// The call that a driver makes for each entry. Table, ring, marks and list are lent, and judged first: no caller has to check anything.
pub fn step(
    table: &mut [u8],
    ring: &mut [u8],
    marks: &mut Marks,
    stocks: &mut [u8],
    entry: &[u8],
) -> Answer
    ensures { Leaves (step (world table.old ring.old marks.old stocks.old) entry.now) result marks.new table.new ring.new stocks.new }
{
    if !sound(table) {
        return Err(Refusal::NotSound);
    }
    if !ring_good(ring.len(), *marks) {
        return Err(Refusal::WrongRing);
    }
    if !list_good(stocks) {
        return Err(Refusal::WrongStocks);
    }
    offer(table, ring, marks, stocks, entry)
}

// What a step does once table, ring and list are judged. Whoever plays many entries in a row judges once and calls this.
#[tactic(auto, using(crate::proofs::Offers::leaves), unfolding(crate::proofs::Opened::opened))]
pub fn offer(
    table: &mut [u8],
    ring: &mut [u8],
    marks: &mut Marks,
    stocks: &mut [u8],
    entry: &[u8],
) -> Answer
    requires { (sound table.old ≡ true) × ((ring_good (length ring.old) marks.old ≡ true) × (list_good stocks.old ≡ true)) }
    ensures { Leaves (offer (world table.old ring.old marks.old stocks.old) entry.now) result marks.new table.new ring.new stocks.new }
{
    judge(entry)?;
    take(table, ring, marks, stocks, entry)
}

// A legal entry: in time or not, and then what it comes to.
#[tactic(auto, using(crate::proofs::Offers::leaves), unfolding(crate::proofs::Opened::opened))]
fn take(
    table: &mut [u8],
    ring: &mut [u8],
    marks: &mut Marks,
    stocks: &mut [u8],
    entry: &[u8],
) -> Answer
    requires { (sound table.old ≡ true) × ((ring_good (length ring.old) marks.old ≡ true) × ((list_good stocks.old ≡ true) × (entry_answer entry.now ≡ Done))) }
    ensures { Leaves (offer (world table.old ring.old marks.old stocks.old) entry.now) result marks.new table.new ring.new stocks.new }
{
    let h = header(table);
    let stamp = stamp_of(entry);
    if stamp < h.last {
        return Err(Refusal::TooEarly);
    }
    let place = named_place(table, entry);
    let d = comes_to(table, Listed { bytes: stocks }, entry, h, place);
    settle(table, ring, marks, stocks, h, place, stamp, d)
}

// Where the order stands that the entry names, in w by a firm and a symbol; behind the used records for s h d n, which name none, as the definition
// `named_place` has it, of which the theorems of `laws` and `day` speak.
#[tactic(auto, using(crate::proofs::Names::named), unfolding(crate::proofs::Opened::opened, tape::specs::Entries::names_order))]
fn named_place(table: &[u8], entry: &[u8]) -> usize
    requires { (sound table.now ≡ true) × (well_formed entry.now ≡ true) }
    ensures { result ≡ named_place table.now entry.now }
{
    if names_order(entry) {
        return find(table, token_of(entry));
    }
    if purges(entry) {
        return find_wanted(table, wanted_by(purge_of(entry)));
    }
    used(table)
}

// What was refused changes nothing. (Table, ring, marks and list stay parameters: of a struct that lends them together, the proof of `take` has no name
// for what stands there afterwards.)
fn settle(
    table: &mut [u8],
    ring: &mut [u8],
    marks: &mut Marks,
    stocks: &mut [u8],
    h: Header,
    place: usize,
    stamp: u64,
    d: Decision,
) -> Answer
    requires { (ring_good (length ring.old) marks.old ≡ true) × ((list_good stocks.old ≡ true) × ((h ≡ header table.old) × ((h.used ≤ most_records) × (h.reference ≤ end_of_references)))) }
    ensures { Leaves (settle (world table.old ring.old marks.old stocks.old) place stamp d) result marks.new table.new ring.new stocks.new }
{
    let plan = d?;
    carry_out(table, ring, marks, stocks, h, place, stamp, plan)
}

// The one place where room is asked for. What follows the question is all writing.
fn carry_out(
    table: &mut [u8],
    ring: &mut [u8],
    marks: &mut Marks,
    stocks: &mut [u8],
    h: Header,
    place: usize,
    stamp: u64,
    plan: Plan,
) -> Answer
    requires { (ring_good (length ring.old) marks.old ≡ true) × ((list_good stocks.old ≡ true) × ((h ≡ header table.old) × ((h.used ≤ most_records) × (h.reference ≤ end_of_references)))) }
    ensures { Leaves (carried_out (world table.old ring.old marks.old stocks.old) place stamp plan) result marks.new table.new ring.new stocks.new }
{
    let sent = message(stamp, plan);
    if ring.len() - marks.held < sent.len {
        return Err(Refusal::Blocked);
    }
    commit(table, h, place, stamp, plan);
    set_if(stocks, plan.stock);
    append_front(ring, marks, &sent.bytes, sent.len);
    Ok(())
}

// The first `len` bytes go behind the held ones. (They come as a slice: the range of an array would leave a goal that has no name of its own.)
fn append_front(ring: &mut [u8], marks: &mut Marks, bytes: &[u8], len: usize)
    requires { (ring_good (length ring.old) marks.old ≡ true) × ((len ≤ free_bytes (length ring.old) marks.old) × (len ≤ length bytes.now)) }
    ensures marks_after { marks.new ≡ marks_with marks.old len }
    ensures ring_after { ring.new ≡ ring_with ring.old marks.old (take len bytes.now) }
{
    append(ring, marks, &bytes[..len]);
}
