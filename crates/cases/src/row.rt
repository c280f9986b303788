// A row of a list of cases: what it shows, a script, and what should come of it. The first two columns are padded with spaces.
use crate::board::Board;
use crate::house::open;
use crate::script::play;
use crate::text::{Text, part};
use crate::told::told;
use std::io::Cursor;
use std::rt::Stdout;
use std::str::from_utf8;

const SCRIPT_FROM: usize = 42;

const SHOULD_FROM: usize = 80;

// How many rows were tried, and how many did what they should.
#[derive(Clone, Copy)]
pub struct Tally {
    pub tried: u64,
    pub agree: u64,
}

// Plays the script on a fresh table with the paper's settings, an empty ring and the stock ABC, which trades, and says what came of it.
fn done(script: &str) -> Text {
    let mut board = Board::new();
    open(&mut board.table, 1_000_000, 1);
    let run = play(&mut board, script);
    let mut out = Cursor::new([0; 160]);
    let _ = told(&board, run, &mut out);
    out
}

// One line; whether what happened is what should.
fn tried(to: Stdout, row: &str) -> bool {
    let words = row.get(..SCRIPT_FROM).unwrap_or("").trim_end();
    let script = row.get(SCRIPT_FROM..SHOULD_FROM).unwrap_or("");
    let should = row.get(SHOULD_FROM..).unwrap_or("");
    let out = done(script);
    let did = from_utf8(part(out.get_ref(), 0, out.position() as usize)).unwrap_or("");
    for piece in [words, ": should ", should, "; did ", did, "\n"] {
        let _ = to.write_all(piece.as_bytes());
    }
    should == did
}

// Each line of the list is a row.
pub(crate) fn shown(to: Stdout, mut tally: Tally, list: &str) -> Tally {
    for row in list.lines() {
        let agrees = tried(to, row);
        tally.tried = tally.tried.wrapping_add(1);
        tally.agree = tally.agree.wrapping_add(agrees as u64);
    }
    tally
}
