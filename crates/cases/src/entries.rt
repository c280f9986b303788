// Entries spelled byte by byte, not through the layouts, so that a wrong offset there shows here.
use crate::run::Run;
use crate::text::put;
use tape::kinds::entry_length;

// Where an entry has what a script sets; `None` for what a kind does not have. The number of a p is its price.
fn name_at(kind: u8) -> Option<usize> {
    match kind {
        b's' | b'E' | b'h' | b'y' | b'w' | b'd' | b'n' => None,
        _ => Some(9),
    }
}

fn replacement_at(kind: u8) -> Option<usize> {
    (kind == b'U').then_some(23)
}

fn shares_at(kind: u8) -> Option<usize> {
    match kind {
        b'O' | b'M' => Some(24),
        b'U' => Some(37),
        b'X' | b'e' | b'c' | b'q' | b'p' => Some(23),
        _ => None,
    }
}

fn price_at(kind: u8) -> Option<usize> {
    match kind {
        b'O' => Some(36),
        b'U' => Some(41),
        b'e' => Some(27),
        b'q' => Some(31),
        _ => None,
    }
}

fn time_at(kind: u8) -> Option<usize> {
    match kind {
        b'O' => Some(40),
        b'U' => Some(45),
        _ => None,
    }
}

fn minimum_at(kind: u8) -> Option<usize> {
    match kind {
        b'O' | b'U' => Some(51),
        _ => None,
    }
}

fn firm_at(kind: u8) -> Option<usize> {
    (kind == b'O').then_some(44)
}

// The firm of the purge port's entries, and the symbol of a w.
fn purged_at(kind: u8) -> Option<usize> {
    match kind {
        b'w' | b'd' | b'n' => Some(9),
        _ => None,
    }
}

fn symbol_at(kind: u8) -> Option<usize> {
    (kind == b'w').then_some(13)
}

// A script that names no firm means ABCD there.
fn purged(run: Run) -> [u8; 4] {
    match run.firm {
        b' ' => *b"ABCD",
        letter => [letter, b' ', b' ', b' '],
    }
}

// All, ABC or XYZ.
fn symbol(n: u32) -> &'static [u8] {
    match n {
        1 => b"ABC     ",
        2 => b"XYZ     ",
        _ => b"        ",
    }
}

fn cross_at(kind: u8) -> Option<usize> {
    (kind == b'O').then_some(55)
}

// The letters of each kind, with dots where the numbers go: buy ABC for a blank firm. E is the end of the day, h halts ABC and y has it trade
// again, Z is no kind at all.
fn shape(kind: u8) -> [u8; 56] {
    match kind {
        b'O' => *b"O........A             B....ABC     ........    YAN....N",
        b'U' => *b"U........A             B             ............YN.... ",
        b'X' => *b"X........A             ....                             ",
        b'M' => *b"M........A             B....                            ",
        b'e' => *b"e........A             ........A\0\0\0\0\0\0\0\x07                ",
        b'c' => *b"c........A             ....T                            ",
        b'q' => *b"q........A             ....\0\0\0\0....A                    ",
        b'p' => *b"p........A             ....                             ",
        b'l' => *b"l........A                                              ",
        b'f' => *b"f........A                                              ",
        b's' => *b"s........S                                              ",
        b'E' => *b"s........E                                              ",
        b'h' => *b"h........ABC     H                                      ",
        b'y' => *b"h........ABC     T                                      ",
        b'w' => *b"w........                                               ",
        b'd' => *b"d........                                               ",
        b'n' => *b"n........                                               ",
        _ => *b"Z........A                                              ",
    }
}

fn set(entry: &mut [u8], at: Option<usize>, bytes: &[u8]) {
    if let Some(at) = at {
        put(entry, at, bytes);
    }
}

// A replace brings B, unless it names its own token twice.
fn replacement(run: Run) -> u8 {
    if run.twice { run.name } else { b'B' }
}

fn set_letters(entry: &mut [u8], run: Run, kind: u8) {
    set(entry, name_at(kind), &[run.name]);
    set(entry, replacement_at(kind), &[replacement(run)]);
    set(entry, cross_at(kind), &[run.cross]);
    set(entry, firm_at(kind), &[run.firm]);
}

fn set_terms(entry: &mut [u8], run: Run, kind: u8) {
    set(entry, price_at(kind), &run.price.to_be_bytes());
    set(entry, time_at(kind), &run.time.to_be_bytes());
    set(entry, minimum_at(kind), &run.minimum.to_be_bytes());
}

fn spoil(entry: &mut [u8], run: Run) {
    set(entry, run.spoiled, &[255]);
    set(entry, run.also, &[255]);
}

// The entry that a script's letter and number stand for, at the front of 56 bytes.
pub(crate) fn entry(run: Run, kind: u8, n: u32) -> [u8; 56] {
    let mut bytes = shape(kind);
    set_letters(&mut bytes, run, kind);
    let stamp = run.stamp as u64 * 1_000_000_000;
    put(&mut bytes, 1, &stamp.to_be_bytes());
    set(&mut bytes, shares_at(kind), &n.to_be_bytes());
    set_terms(&mut bytes, run, kind);
    set(&mut bytes, purged_at(kind), &purged(run));
    set(&mut bytes, symbol_at(kind), symbol(n));
    spoil(&mut bytes, run);
    bytes
}

// How long it is, with what the script cuts off.
pub(crate) fn size(run: Run, kind: u8) -> usize {
    whole_size(kind).saturating_sub(run.cut)
}

fn whole_size(kind: u8) -> usize {
    match kind {
        b'E' => 10,
        b'y' => 18,
        b'Z' => 23,
        _ => entry_length(kind),
    }
}
