// The pieces of a line.
use answers::Refusal;
use listing::clock::clock;
use listing::price::behind_point;
use std::io;
use std::io::{Print, Stdout};

pub(crate) fn say(out: Stdout, words: &[u8]) {
    let _ = out.write_all(words);
}

// Every line ends here. Where standard output takes no more, so much as the line's end, it is an error and the program stops.
pub(crate) fn end_line(out: Stdout) -> io::Result<()> {
    out.write_all(b"\n")
}

pub(crate) fn say_number(out: Stdout, name: &[u8], n: u64) {
    say(out, name);
    let _ = out.print(n);
}

// Four digits stand behind the point.
pub(crate) fn say_price(out: Stdout, price: u32) {
    say_number(out, b" price ", price as u64 / 10_000);
    say(out, b".");
    say(out, &behind_point(price));
}

// Letters and texts stand in quotes, since a space is one of them. Fields that nobody judges may hold any byte; what a terminal would act on is shown as a question mark.
fn printable(b: u8) -> u8 {
    match b {
        b' '..=b'~' => b,
        _ => b'?',
    }
}

pub(crate) fn say_letter(out: Stdout, name: &[u8], b: u8) {
    say(out, name);
    say(out, &[b'\'', printable(b), b'\'']);
}

// At most sixteen bytes of a text, in quotes, with the spaces that fill its field.
fn say_text(out: Stdout, name: &[u8], text: &[u8]) {
    say(out, name);
    let n = text.len().min(16);
    let mut shown = [b'\''; 18];
    for (place, b) in shown[1..].iter_mut().zip(&text[..n]) {
        *place = printable(*b);
    }
    say(out, &shown[..n + 2]);
}

pub(crate) fn say_stamp(out: Stdout, name: &[u8], stamp: u64) {
    say(out, name);
    say(out, &clock(stamp));
}

// Arrays by value: of one that was taken from a struct the length is not known otherwise.
pub(crate) fn say_stock(out: Stdout, stock: [u8; 8]) {
    say_text(out, b" stock ", &stock);
}

pub(crate) fn say_firm(out: Stdout, firm: [u8; 4]) {
    say_text(out, b" firm ", &firm);
}

pub(crate) fn say_symbol(out: Stdout, symbol: [u8; 8]) {
    say_text(out, b" symbol ", &symbol);
}

pub(crate) fn say_account(out: Stdout, account: [u8; 6]) {
    say_text(out, b" account ", &account);
}

pub(crate) fn say_token(out: Stdout, name: &[u8], token: [u8; 14]) {
    say_text(out, name, &token);
}

// What most lines begin with.
pub(crate) fn say_head(out: Stdout, name: &[u8], stamp: u64, token: [u8; 14]) {
    say_stamp(out, name, stamp);
    say_token(out, b" ", token);
}

pub(crate) fn say_refused(out: Stdout, name: &[u8], refusal: Refusal) -> io::Result<()> {
    say(out, name);
    say_number(out, b" refused with ", refusal.number() as u64);
    end_line(out)
}
