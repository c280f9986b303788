// What came of a script's last entry, in words that are taken from the answer, the ring's bytes and the table's.
use crate::asked::asked;
use crate::board::{Board, LONGEST};
use crate::run::{Last, Run};
use crate::text::{Text, letter, number, part, put};
use answers::Refusal;
use outbox::marks::Marks;
use outbox::read::read;
use outbox::release::release;
use std::io;
use std::io::Write;
use wire::messages::message_length;

// A refusal changes nothing, so there is no more to say of it.
fn refused(refusal: Refusal, changed: bool, out: &mut Text) -> io::Result<()> {
    write!(out, "answer {}", refusal.number())?;
    let at = refusal.place();
    if at != 0 {
        write!(out, " at {at}")?;
    }
    if changed {
        return write!(out, ", but something changed");
    }
    write!(out, ", nothing changed")
}

// The held bytes in a row; those that wrap at the ring's end are two runs.
fn held_bytes(ring: &[u8], marks: Marks) -> [u8; LONGEST] {
    let mut bytes = [0; LONGEST];
    let first = read(ring, marks);
    put(&mut bytes, 0, first);
    let mut behind = marks;
    let _ = release(ring.len(), &mut behind, first.len());
    put(&mut bytes, first.len(), read(ring, behind));
    bytes
}

// Shares, price and time in force.
fn accepted(sent: &[u8], out: &mut Text) -> io::Result<()> {
    let shares = number(sent, 24);
    let price = number(sent, 36);
    let time = number(sent, 40);
    write!(out, "Accepted {shares} at {price} for {time} by ")?;
    out.write_all(part(sent, 44, 48).trim_ascii_end())
}

fn message(sent: &[u8], out: &mut Text) -> io::Result<()> {
    let [kind, ..] = sent else {
        return write!(out, "nothing sent");
    };
    match *kind {
        b'S' => write!(out, "System Event {}", letter(sent, 9) as char),
        b'A' => accepted(sent, out),
        b'U' => write!(out, "Replaced {}", number(sent, 24)),
        b'C' => write!(out, "Canceled {}", number(sent, 23)),
        b'E' => write!(out, "Executed {}", number(sent, 23)),
        b'J' => write!(out, "Rejected {}", letter(sent, 23) as char),
        b'P' => write!(out, "Cancel Pending"),
        b'I' => write!(out, "Cancel Reject"),
        b'M' => write!(out, "Modified {}", number(sent, 24)),
        _ => write!(out, "type {}", *kind as char),
    }
}

// Where the record of a token that begins with this letter stands in a table of two.
fn record(table: &[u8], name: u8) -> Option<usize> {
    let used = number(table, 4);
    if 0 < used && letter(table, 65) == name {
        return Some(64);
    }
    (1 < used && letter(table, 145) == name).then_some(144)
}

// Liable less executed less self-matched is open.
fn counts(order: &[u8], out: &mut Text) -> io::Result<()> {
    let liable = number(order, 16);
    let executed = number(order, 20);
    let matched = number(order, 24);
    let open = liable.wrapping_sub(executed).wrapping_sub(matched);
    write!(out, "{liable}-{executed}-{matched}={open}")
}

fn stands(order: &[u8], out: &mut Text) -> io::Result<()> {
    match letter(order, 0) {
        b'L' => {
            write!(out, " live ")?;
            counts(order, out)?;
            write!(out, " for {}", number(order, 40))
        }
        b'D' => {
            write!(out, " dead ")?;
            counts(order, out)
        }
        b'R' => write!(out, " rejected"),
        _ => write!(out, " in no state"),
    }
}

// What a token means now: its counts and its time in force, or why it has none.
fn order(table: &[u8], name: u8, out: &mut Text) -> io::Result<()> {
    write!(out, ", {}", name as char)?;
    match record(table, name) {
        Some(place) => stands(part(table, place, table.len()), out),
        None => write!(out, " free"),
    }
}

// Whether all 80 bytes of the first record, which is A's, are what they were before the entry.
fn intact(table: &[u8], last: Last, out: &mut Text) -> io::Result<()> {
    if last.intact && record(table, b'A') == Some(64) {
        write!(out, " intact")?;
    }
    Ok(())
}

// The type of the one message that was held before and still is; a question mark where those bytes are something else.
fn behind(older: &[u8], out: &mut Text) -> io::Result<()> {
    let [kind, ..] = older else {
        return Ok(());
    };
    if message_length(false, *kind) == older.len() {
        return write!(out, ", behind {}", *kind as char);
    }
    write!(out, ", behind ?")
}

// What is said beside the orders: whether the list's stock is halted, and the bits of the blocked firms, where any is set.
fn beside(board: &Board, out: &mut Text) -> io::Result<()> {
    if letter(&board.stocks, 8) == b'H' {
        write!(out, ", ABC halted")?;
    }
    let bits = letter(&board.table, 3);
    if bits != 0 {
        write!(out, ", byte 3 is {bits}")?;
    }
    Ok(())
}

pub(crate) fn told(board: &Board, run: Run, out: &mut Text) -> io::Result<()> {
    if let Err(refusal) = run.last.answer {
        return refused(refusal, run.last.changed, out);
    }
    let table = &board.table;
    let before = run.last.before;
    let sent = held_bytes(part(&board.ring, 0, run.ring), run.marks);
    message(part(&sent, before, run.marks.held), out)?;
    order(table, b'A', out)?;
    intact(table, run.last, out)?;
    order(table, b'B', out)?;
    beside(board, out)?;
    asked(table, run, out)?;
    behind(part(&sent, 0, before), out)
}
