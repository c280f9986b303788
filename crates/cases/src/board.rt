// What a script is played on: a table, a ring and a list of stocks.

// The longest ring. A script's may be shorter.
pub(crate) const LONGEST: usize = 128;

// Two records, so that A and B fill the table.
const TABLE_SIZE: usize = 225;

// By value and whole, the ring as long as the longest: two boards are compared at once.
#[derive(Clone, Copy, PartialEq)]
pub(crate) struct Board {
    pub table: [u8; TABLE_SIZE],
    pub ring: [u8; LONGEST],
    pub stocks: [u8; 9],
}

impl Board {
    // One stock, which trades.
    pub(crate) fn new() -> Board {
        Board {
            table: [0; TABLE_SIZE],
            ring: [0; LONGEST],
            stocks: *b"ABC     T",
        }
    }
}
