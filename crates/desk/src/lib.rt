// The practice desk's host: 800 records, threshold 1,000,000, firm ABCD, a ring of 4,096 bytes, and one stock, ABC, which trades.
#![tactic(auto)]

ghost use Rattle.std.specs.Prelude.{◌≡◌};
ghost use Rattle.table.specs.Fresh.{fresh_answer, fresh_table};
ghost use Rattle.desk.specs.Desk.{desk_settings};

use answers::Answer;
use header::settings::{Firm, Settings};
use table::fresh::fresh;
use wire::shares::Total;

// The table's bytes: a header of 64, 800 records of 80, and 100 of bits, one a record.
pub const TABLE_SIZE: usize = 64_164;

pub const RING_SIZE: usize = 4_096;

// The list of stocks: a symbol and its state.
pub const STOCKS: [u8; 9] = *b"ABC     T";

// One firm is listed. It stands in all eight places, since those past the count are not looked at.
pub fn settings() -> Settings
    ensures { result ≡ desk_settings }
{
    Settings {
        threshold: Total(1_000_000),
        firms: [Firm { code: *b"ABCD" }; 8],
        count: 1,
    }
}

// A fresh table for the desk.
pub fn open(table: &mut [u8]) -> Answer
    ensures { (result ≡ fresh_answer table.old desk_settings) × (table.new ≡ fresh_table table.old desk_settings) }
{
    fresh(table, settings())
}
