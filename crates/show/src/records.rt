// A used record of a table, as one line.
use crate::line::{
    end_line, say, say_firm, say_letter, say_number, say_price, say_stock, say_token,
};
use orders::counts::{Counts, open_shares};
use orders::flags::Flag;
use orders::order::{Details, Order, is};
use std::io;
use std::io::Stdout;

// The place is counted from 0, as the bits are: the record begins at byte 64 + 80 times the place.
pub(crate) fn show_record(out: Stdout, place: usize, o: Order) -> io::Result<()> {
    say_number(out, b"Record ", place as u64);
    say_token(out, b" ", o.token);
    match o.state {
        b'L' => show_order(out, b" live", o),
        b'D' => show_order(out, b" dead", o),
        b'R' => show_state(out, b" rejected"),
        _ => show_state(out, b" in no state"),
    }
}

// A rejected token has a record with nothing else in it.
fn show_state(out: Stdout, state: &[u8]) -> io::Result<()> {
    say(out, state);
    end_line(out)
}

fn show_order(out: Stdout, state: &[u8], o: Order) -> io::Result<()> {
    say(out, state);
    say_letter(out, b" side ", o.side);
    say_shares(out, o.shares);
    say_details(out, o.details);
    say_flags(out, o);
    end_line(out)
}

fn say_shares(out: Stdout, shares: Counts) {
    say_number(out, b" liable ", shares.liable.0 as u64);
    say_number(out, b" executed ", shares.executed.0 as u64);
    say_number(out, b" self-matched ", shares.matched.0 as u64);
    say_number(out, b" open ", open_shares(shares).0 as u64);
}

fn say_details(out: Stdout, details: Details) {
    say_stock(out, details.kept.stock);
    say_price(out, details.terms.price);
    say_number(out, b" time in force ", details.terms.time as u64);
    say_firm(out, details.kept.firm);
}

fn say_flags(out: Stdout, o: Order) {
    if is(o, Flag::Late) {
        say(out, b" late");
    }
    if is(o, Flag::Pending) {
        say(out, b" pending");
    }
    if is(o, Flag::RejectSent) {
        say(out, b" reject sent");
    }
}
