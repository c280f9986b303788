// Fresh tables: with the paper's settings, with other numbers of firms, and with other thresholds.
use header::settings::{Firm, Settings};
use table::fresh::fresh;
use wire::shares::Total;

// ABCD is the default; behind it the n-th firm's code is the n-th capital.
fn firms() -> [Firm; 8] {
    let mut list = [Firm { code: *b"ABCD" }; 8];
    list[1] = Firm { code: *b"B   " };
    list[7] = Firm { code: *b"H   " };
    list
}

pub(crate) fn open(table: &mut [u8], threshold: u32, count: u32) {
    let _ = fresh(
        table,
        Settings {
            threshold: Total(threshold),
            firms: firms(),
            count: (count % 256) as u8,
        },
    );
}
