// A row of messages as clients send them to the purge port, one line a message.
use crate::line::{end_line, say, say_account, say_firm, say_number, say_refused, say_symbol};
use answers::Refusal;
use purge::mass_cancel::MassCancel;
use purge::order_entry::{Disable, Enable, OrderEntry};
use std::io;
use std::io::Stdout;
use wire::body::{Reading, read};

// The place that is told of a Mass Cancel's appendage; the only other one is an account's.
const APPENDAGE: usize = 23;

// By the type. A feed hands out messages of these types alone.
pub(crate) fn show_request(out: Stdout, s: &[u8]) -> io::Result<()> {
    match s {
        [b'M', ..] => show_mass_cancel(out, s),
        [b'D', ..] => show_order_entry(out, b"Disable Order Entry", read::<Disable>(s)),
        [b'E', ..] => show_order_entry(out, b"Enable Order Entry", read::<Enable>(s)),
        _ => Ok(()),
    }
}

fn show_mass_cancel(out: Stdout, s: &[u8]) -> io::Result<()> {
    match read::<MassCancel>(s).legal() {
        Ok(m) => {
            say_number(out, b"Mass Cancel reference ", m.user_reference as u64);
            say_firm(out, m.firm);
            say_account(out, m.account);
            say_symbol(out, m.symbol);
            say_number(out, b" appendage ", m.appendage_length as u64);
            end_line(out)
        }
        Err(refusal) => show_refused(out, b"Mass Cancel", refusal),
    }
}

// D and E differ in their names alone.
fn show_order_entry<const LETTER: u8>(
    out: Stdout,
    name: &[u8],
    found: Reading<OrderEntry<LETTER>>,
) -> io::Result<()> {
    match found.legal() {
        Ok(m) => {
            say(out, name);
            say_number(out, b" reference ", m.user_reference as u64);
            say_firm(out, m.firm);
            say_account(out, m.account);
            end_line(out)
        }
        Err(refusal) => show_refused(out, name, refusal),
    }
}

// By its answer, and with a bad field by a line that names it. The place is the field's first byte, which need not be the bad one, so it stands
// there without its byte.
fn show_refused(out: Stdout, name: &[u8], refusal: Refusal) -> io::Result<()> {
    let shown = say_refused(out, name, refusal);
    let at = refusal.place();
    if at == 0 {
        return shown;
    }
    if at == APPENDAGE {
        say_number(out, b"  bad appendage at ", at as u64);
    } else {
        say_number(out, b"  bad account at ", at as u64);
    }
    end_line(out)
}
