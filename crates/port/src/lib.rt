// The door for C, whose symbols stand in port_c: ten functions, eight of them over lent memory. Each hands its arguments to a proved function and an
// answer's number back, and asks nothing that a C caller could break but that its pointers and lengths are true. Where bytes are judged, the place
// that the answer tells is written by every call.
#![tactic(auto)]

mod settings;

ghost use Rattle.std.specs.Prelude.{◌≡◌, not, eqb, length};
ghost use Rattle.answers.specs.Answer.{answer_number, answer_place};
ghost use Rattle.table.specs.Fresh.{fresh_answer, fresh_table};
ghost use Rattle.table.specs.Status.{status};
ghost use Rattle.convert.specs.Convert.{convert_answer, converted};
ghost use Rattle.outbox.specs.Outbox.{read_run, release_answer, release_marks};
ghost use Rattle.echo.specs.Echo.{message_answer, message_echoed};
ghost use Rattle.host.specs.Step.{step, world};
ghost use Rattle.stamping.specs.Stamping.{stamp_answer, stamp_after};
ghost use Rattle.tape.specs.Kinds.{entry_length};
ghost use Rattle.wire.specs.Messages.{message_length};
ghost use Rattle.port.specs.Door.{marks, settings_given, Left, Stated};

use crate::settings::settings_given;
use answers::number;
use convert::convert;
use echo::echo;
use host::step::step;
use outbox::marks::Marks;
use outbox::read::read;
use outbox::release::release;
use stamping::stamped;
use table::fresh::fresh;
use table::status::{Tally, status};
use tape::kinds::entry_length;
use wire::messages::message_length;

// A fresh table from threshold and firms, 4 bytes each, one after the other.
pub fn pq_fresh(table: &mut [u8], threshold: u32, firms: &[u8]) -> u8
    ensures { (result ≡ answer_number (fresh_answer table.old (settings_given threshold firms.now))) × (table.new ≡ fresh_table table.old (settings_given threshold firms.now)) }
{
    number(fresh(table, settings_given(threshold, firms)))
}

// One entry. The marks stand behind two pointers, and the place of the answer is written behind a third.
pub fn pq_step(
    table: &mut [u8],
    ring: &mut [u8],
    at: &mut usize,
    held: &mut usize,
    stocks: &mut [u8],
    entry: &[u8],
    place: &mut usize,
) -> u8
    ensures { Left (step (world table.old ring.old (marks at.old held.old) stocks.old) entry.now) result place.new table.new ring.new (marks at.new held.new) stocks.new }
{
    let mut marks = Marks {
        at: *at,
        held: *held,
    };
    let answer = step(table, ring, &mut marks, stocks, entry);
    *at = marks.at;
    *held = marks.held;
    *place = answers::place(answer);
    number(answer)
}

// How many orders are live, and how many shares are open of them, as the table says; both are written by every call, zeros where it is refused.
pub fn pq_status(table: &[u8], live: &mut usize, shares: &mut usize) -> u8
    ensures { Stated (status table.now) result live.new shares.new }
{
    let answer = status(table);
    let told = answer.unwrap_or(Tally { live: 0, shares: 0 });
    *live = told.live;
    *shares = told.shares;
    number(answer.and(Ok(())))
}

// An old table rebuilt as one of today.
pub fn pq_convert(old: &[u8], table: &mut [u8]) -> u8
    ensures { (result ≡ answer_number (convert_answer old.now (length table.old))) × (table.new ≡ converted old.now table.old) }
{
    let rebuilt = convert(old, table);
    number(rebuilt)
}

// How many bytes there are to read at the read place.
pub fn pq_read(ring: &[u8], at: usize, held: usize) -> usize
    ensures { result ≡ length (read_run ring.now (marks at held)) }
{
    let run = read(ring, Marks { at, held });
    run.len()
}

// The oldest k bytes of a ring of n are given up.
pub fn pq_release(n: usize, at: &mut usize, held: &mut usize, k: usize) -> u8
    ensures value { result ≡ answer_number (release_answer n (marks at.old held.old) k) }
    ensures marks_after { marks at.new held.new ≡ release_marks n (marks at.old held.old) k }
{
    let mut marks = Marks {
        at: *at,
        held: *held,
    };
    let answer = release(n, &mut marks, k);
    *at = marks.at;
    *held = marks.held;
    number(answer)
}

// A message read, as inbound where `inbound` is not 0, and written back into `out`. The place of the answer is written, too.
pub fn pq_echo(inbound: u8, message: &[u8], out: &mut [u8], place: &mut usize) -> u8
    ensures value { (result ≡ answer_number (message_answer (not (eqb inbound 0)) message.now out.old)) × (place.new ≡ answer_place (message_answer (not (eqb inbound 0)) message.now out.old)) }
    ensures out_after { out.new ≡ message_echoed (not (eqb inbound 0)) message.now out.old }
{
    let echoed = echo(inbound != 0, message, out);
    *place = answers::place(echoed);
    number(echoed)
}

// The entry of a message and its time, of the purge port's where `purge` is not 0, at the front of `entry`. The place of the answer is written, too.
pub fn pq_entry(purge: u8, stamp: u64, message: &[u8], entry: &mut [u8], place: &mut usize) -> u8
    ensures value { (result ≡ answer_number (stamp_answer (not (eqb purge 0)) stamp message.now entry.old)) × (place.new ≡ answer_place (stamp_answer (not (eqb purge 0)) stamp message.now entry.old)) }
    ensures entry_after { entry.new ≡ stamp_after (not (eqb purge 0)) stamp message.now entry.old }
{
    let made = stamped(purge != 0, stamp, message, entry);
    *place = answers::place(made);
    number(made)
}

// The length of an entry of this kind, kind byte and stamp included, so that no driver keeps a table of its own; 0 for no kind.
pub fn pq_entry_length(kind: u8) -> usize
    ensures { result ≡ entry_length kind }
{
    entry_length(kind)
}

// The length of the message of this type, as inbound where `inbound` is not 0; 0 for no type.
pub fn pq_message_length(inbound: u8, letter: u8) -> usize
    ensures { result ≡ message_length (not (eqb inbound 0)) letter }
{
    message_length(inbound != 0, letter)
}
