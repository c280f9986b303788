// The table of two records in its old form, without bits, and what the converter makes of it.
use crate::run::Last;
use crate::text::{part, put};
use answers::{Answer, Refusal};
use convert::convert;

// How long it is: the bits stood behind it.
const OLD_SIZE: usize = 224;

// Room for a buffer that is a byte too long.
const SECOND: usize = 226;

pub(crate) fn take_back(table: &mut [u8]) {
    put(table, 2, &[0]);
    put(table, 60, &[0, 0, 0, 0]);
    put(table, OLD_SIZE, &[0]);
}

// The converter is lent so many bytes of the second buffer.
fn rebuilt(old: &[u8], second: &mut [u8], n: usize) -> Answer {
    match second.get_mut(..n) {
        Some(lent) => convert(old, lent),
        None => Err(Refusal::NoRoom),
    }
}

// With another answer than 0 the second buffer should be what it was.
fn outcome(answer: Answer, table: &[u8], second: &[u8]) -> Last {
    Last {
        answer,
        before: 0,
        changed: second != [255; SECOND].as_slice(),
        intact: part(table, 64, 144) == part(second, 64, 144),
    }
}

// What it has rebuilt is the table from here on.
pub(crate) fn converted(table: &mut [u8], n: usize) -> Last {
    let mut second = [255u8; SECOND];
    let answer = rebuilt(part(table, 0, OLD_SIZE), &mut second, n);
    let last = outcome(answer, table, &second);
    if answer.is_ok() {
        put(table, 0, part(&second, 0, n));
    }
    last
}
