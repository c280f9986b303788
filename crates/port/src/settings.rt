// A table's settings from what a C caller names: the threshold, and firm codes in a row.
ghost use Rattle.std.specs.Prelude.{◌≡◌, ◌<◌};
ghost use Rattle.header.specs.Limits.{most_firms};
ghost use Rattle.port.specs.Door.{count_given, firm_given, firms_given, settings_given};

use header::firms::{FIRM_SIZE, MOST_FIRMS};
use header::settings::{Firm, Settings};
use wire::shares::Total;

// How many codes the row has. One that is not of whole codes, or of more than eight, counts as none, which no table takes: so `settings_given` has it,
// by which `pq_fresh` answers.
fn count_given(firms: &[u8]) -> u8
    ensures { result ≡ count_given firms.now }
{
    let n = firms.len();
    if (n % FIRM_SIZE == 0) & (n <= FIRM_SIZE * MOST_FIRMS) {
        return (n / FIRM_SIZE) as u8;
    }
    0
}

// The code at place k. Where the row has none, whatever stands there is past the count and not looked at.
fn firm_given(firms: &[u8], k: usize) -> Firm
    requires { k < most_firms }
    ensures { result ≡ firm_given firms.now k }
{
    let at = FIRM_SIZE * k;
    if at + FIRM_SIZE <= firms.len() {
        let code = octets::bytes_at(firms, at);
        return Firm { code };
    }
    Firm { code: [0u8; 4] }
}

// A code to a place.
fn firms_given(firms: &[u8]) -> [Firm; 8]
    ensures { result ≡ firms_given firms.now }
{
    [
        firm_given(firms, 0),
        firm_given(firms, 1),
        firm_given(firms, 2),
        firm_given(firms, 3),
        firm_given(firms, 4),
        firm_given(firms, 5),
        firm_given(firms, 6),
        firm_given(firms, 7),
    ]
}

pub(crate) fn settings_given(threshold: u32, firms: &[u8]) -> Settings
    ensures { result ≡ settings_given threshold firms.now }
{
    let places = firms_given(firms);
    Settings {
        threshold: Total(threshold),
        firms: places,
        count: count_given(firms),
    }
}
