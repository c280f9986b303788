// The symbols of the door for C: each is the function of port that has its name, with the same clauses.
#![tactic(auto)]

ghost use Rattle.std.specs.Prelude.{◌≡◌, not, eqb, length};
ghost use Rattle.answers.specs.Answer.{answer_number, answer_place};
ghost use Rattle.table.specs.Fresh.{fresh_answer, fresh_table};
ghost use Rattle.table.specs.Status.{status};
ghost use Rattle.convert.specs.Convert.{convert_answer, converted};
ghost use Rattle.outbox.specs.Outbox.{read_run, release_answer, release_marks};
ghost use Rattle.echo.specs.Echo.{message_answer, message_echoed};
ghost use Rattle.host.specs.Step.{step, world};
ghost use Rattle.stamping.specs.Stamping.{stamp_answer, stamp_after};
ghost use Rattle.tape.specs.Kinds.{entry_length};
ghost use Rattle.wire.specs.Messages.{message_length};
ghost use Rattle.port.specs.Door.{marks, settings_given, Left, Stated};

// A fresh table from threshold and firms, 4 bytes each, one after the other.
#[unsafe(no_mangle)]
pub extern "C" fn pq_fresh(table: &mut [u8], threshold: u32, firms: &[u8]) -> u8
    ensures { (result ≡ answer_number (fresh_answer table.old (settings_given threshold firms.now))) × (table.new ≡ fresh_table table.old (settings_given threshold firms.now)) }
{
    port::pq_fresh(table, threshold, firms)
}

// One entry. The marks stand behind two pointers, and the place of the answer is written behind a third.
#[unsafe(no_mangle)]
pub extern "C" fn pq_step(
    table: &mut [u8],
    ring: &mut [u8],
    at: &mut usize,
    held: &mut usize,
    stocks: &mut [u8],
    entry: &[u8],
    place: &mut usize,
) -> u8
    ensures { Left (step (world table.old ring.old (marks at.old held.old) stocks.old) entry.now) result place.new table.new ring.new (marks at.new held.new) stocks.new }
{
    port::pq_step(table, ring, at, held, stocks, entry, place)
}

// How many orders are live, and how many shares are open of them, as the table says; both are written by every call, zeros where it is refused.
#[unsafe(no_mangle)]
pub extern "C" fn pq_status(table: &[u8], live: &mut usize, shares: &mut usize) -> u8
    ensures { Stated (status table.now) result live.new shares.new }
{
    port::pq_status(table, live, shares)
}

// An old table rebuilt as one of today.
#[unsafe(no_mangle)]
pub extern "C" fn pq_convert(old: &[u8], table: &mut [u8]) -> u8
    ensures { (result ≡ answer_number (convert_answer old.now (length table.old))) × (table.new ≡ converted old.now table.old) }
{
    port::pq_convert(old, table)
}

// How many bytes there are to read at the read place.
#[unsafe(no_mangle)]
pub extern "C" fn pq_read(ring: &[u8], at: usize, held: usize) -> usize
    ensures { result ≡ length (read_run ring.now (marks at held)) }
{
    port::pq_read(ring, at, held)
}

// The oldest k bytes of a ring of n are given up.
#[unsafe(no_mangle)]
pub extern "C" fn pq_release(n: usize, at: &mut usize, held: &mut usize, k: usize) -> u8
    ensures value { result ≡ answer_number (release_answer n (marks at.old held.old) k) }
    ensures marks_after { marks at.new held.new ≡ release_marks n (marks at.old held.old) k }
{
    port::pq_release(n, at, held, k)
}

// A message read, as inbound where `inbound` is not 0, and written back into `out`. The place of the answer is written, too.
#[unsafe(no_mangle)]
pub extern "C" fn pq_echo(inbound: u8, message: &[u8], out: &mut [u8], place: &mut usize) -> u8
    ensures value { (result ≡ answer_number (message_answer (not (eqb inbound 0)) message.now out.old)) × (place.new ≡ answer_place (message_answer (not (eqb inbound 0)) message.now out.old)) }
    ensures out_after { out.new ≡ message_echoed (not (eqb inbound 0)) message.now out.old }
{
    port::pq_echo(inbound, message, out, place)
}

// The entry of a message and its time, of the purge port's where `purge` is not 0, at the front of `entry`. The place of the answer is written, too.
#[unsafe(no_mangle)]
pub extern "C" fn pq_entry(
    purge: u8,
    stamp: u64,
    message: &[u8],
    entry: &mut [u8],
    place: &mut usize,
) -> u8
    ensures value { (result ≡ answer_number (stamp_answer (not (eqb purge 0)) stamp message.now entry.old)) × (place.new ≡ answer_place (stamp_answer (not (eqb purge 0)) stamp message.now entry.old)) }
    ensures entry_after { entry.new ≡ stamp_after (not (eqb purge 0)) stamp message.now entry.old }
{
    port::pq_entry(purge, stamp, message, entry, place)
}

// The length of an entry of this kind, kind byte and stamp included, so that no driver keeps a table of its own; 0 for no kind.
#[unsafe(no_mangle)]
pub extern "C" fn pq_entry_length(kind: u8) -> usize
    ensures { result ≡ entry_length kind }
{
    port::pq_entry_length(kind)
}

// The length of the message of this type, as inbound where `inbound` is not 0; 0 for no type.
#[unsafe(no_mangle)]
pub extern "C" fn pq_message_length(inbound: u8, letter: u8) -> usize
    ensures { result ≡ message_length (not (eqb inbound 0)) letter }
{
    port::pq_message_length(inbound, letter)
}
