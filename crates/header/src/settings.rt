// What a fresh table is made from: the threshold, and the firms up to a count.
ghost use Rattle.std.specs.Prelude.{◌≡◌};
ghost use Rattle.header.specs.Settings.{settings_good, listed_firms, fresh_header};

use crate::firms::{FIRM_SIZE, MOST_FIRMS, firms_shaped};
use crate::{BEFORE, FIRST_REFERENCE, Header};
use wire::shares::Total;

pub const LOWEST_THRESHOLD: u32 = 1;

pub const HIGHEST_THRESHOLD: u32 = 1_000_000;

#[derive(Clone, Copy)]
pub struct Firm {
    pub code: [u8; 4],
}

// The first `count` firms are listed, the first of them as the default; the places past the count are not looked at. An array and a count, as they are
// asked for by name.
#[derive(Clone, Copy)]
pub struct Settings {
    pub threshold: Total,
    pub firms: [Firm; 8],
    pub count: u8,
}

// The codes of the listed firms in a row, and zeros behind them.
fn listed_firms(firms: [Firm; 8], count: usize) -> [u8; 32]
    ensures { result ≡ listed_firms firms count }
{
    let mut row = [0u8; 32];
    for k in 0..count.min(MOST_FIRMS) {
        octets::put_array(&mut row, FIRM_SIZE * k, firms[k].code);
    }
    row
}

pub fn settings_good(settings: Settings) -> bool
    ensures { result ≡ settings_good settings }
{
    let threshold = settings.threshold.0;
    let count = settings.count as usize;
    (LOWEST_THRESHOLD <= threshold)
        & (threshold <= HIGHEST_THRESHOLD)
        & (1 <= count)
        & (count <= MOST_FIRMS)
        & firms_shaped(listed_firms(settings.firms, count), count)
}

// Day 0, no firm blocked, nothing used, stamp 0, the first reference, and these settings.
pub fn fresh_header(settings: Settings) -> Header
    ensures { result ≡ fresh_header settings }
{
    Header {
        day: BEFORE,
        count: settings.count,
        blocked: 0,
        used: 0,
        last: 0,
        reference: FIRST_REFERENCE,
        threshold: settings.threshold,
        firms: listed_firms(settings.firms, settings.count as usize),
    }
}
