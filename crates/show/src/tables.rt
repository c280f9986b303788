// A table: whether it is sound and what it keeps of its live orders, the day, a line for each firm, and one for each used record.
use crate::line::{end_line, say, say_firm, say_number, say_refused, say_stamp};
use crate::records::show_record;
use answers::Refusal;
use header::firms::{MOST_FIRMS, firm_at, firm_blocked};
use header::{BEFORE, CLOSED, HEADER_SIZE, Header, OPEN};
use std::io;
use std::io::Stdout;
use table::find::order_from;
use table::places::{header, records_in, used};
use table::sound::{size_good, sound};
use table::status::{Tally, status};

// With 800 records.
const LONGEST_TABLE: usize = 64_164;

// One that is not sound is shown as far as it goes, so that what is wrong in it can be seen.
pub(crate) fn show_table(out: Stdout, table: &[u8]) -> io::Result<()> {
    match status(table) {
        Ok(tally) => {
            show_tally(out, table, tally)?;
            show_day(out, header(table))?;
            show_firms(out, header(table))?;
            show_records(out, table)
        }
        Err(refusal) => show_refused(out, table, refusal),
    }
}

// By its answer, and by a line that says which of the two is no table's: the length, or the form in byte 2.
fn show_refused(out: Stdout, table: &[u8], refusal: Refusal) -> io::Result<()> {
    let _ = say_refused(out, b"Table", refusal);
    match table.get(2) {
        Some(form) if size_good(table) && HEADER_SIZE <= table.len() => {
            say_number(out, b"  bad form at 2: byte ", *form as u64)
        }
        _ => say_length(out, table.len()),
    }
    end_line(out)
}

// No more is read of an input that is too long.
fn say_length(out: Stdout, n: usize) {
    if LONGEST_TABLE < n {
        say_number(out, b"  bad length, above ", LONGEST_TABLE as u64);
    } else {
        say_number(out, b"  bad length ", n as u64);
    }
}

fn show_tally(out: Stdout, table: &[u8], tally: Tally) -> io::Result<()> {
    if sound(table) {
        say(out, b"Table sound");
    } else {
        say(out, b"Table not sound");
    }
    say_number(out, b" live orders ", tally.live as u64);
    say_number(out, b" open shares ", tally.shares as u64);
    say_number(out, b" records used ", used(table) as u64);
    say_number(out, b" of ", records_in(table) as u64);
    end_line(out)
}

fn named(day: u8) -> &'static [u8] {
    match day {
        BEFORE => b"Day not begun",
        OPEN => b"Day open",
        CLOSED => b"Day closed",
        _ => b"Day in no state",
    }
}

fn show_day(out: Stdout, h: Header) -> io::Result<()> {
    say(out, named(h.day));
    say_stamp(out, b" last stamp ", h.last);
    say_number(out, b" next reference ", h.reference);
    say_number(out, b" threshold ", h.threshold.0 as u64);
    end_line(out)
}

fn show_firm(out: Stdout, h: Header, firm: [u8; 4]) -> io::Result<()> {
    say(out, b"Listed");
    say_firm(out, firm);
    if firm_blocked(h, firm) {
        say(out, b" blocked");
    }
    end_line(out)
}

fn show_firms(out: Stdout, h: Header) -> io::Result<()> {
    for k in 0..(h.count as usize).min(MOST_FIRMS) {
        show_firm(out, h, firm_at(h.firms, k))?;
    }
    Ok(())
}

fn show_records(out: Stdout, table: &[u8]) -> io::Result<()> {
    for i in 0..used(table) {
        show_record(out, i, order_from(table, i))?;
    }
    Ok(())
}
