// When the header's 60 bytes hold, over a table of so many records.
ghost use Rattle.std.specs.Prelude.{◌≡◌};
ghost use Rattle.wire.specs.Layout.{no_bad_place};
ghost use Rattle.header.specs.Header.{header_layout, header_of};
ghost use Rattle.header.specs.Sound.{header_sound};

use crate::firms::{MOST_FIRMS, firms_shaped, rest_blank};
use crate::settings::{HIGHEST_THRESHOLD, LOWEST_THRESHOLD};
use crate::{CLOSED, END_OF_REFERENCES, FIRST_REFERENCE, Header, SUM_PLACE, TABLE_FORM, header_of};
use octets::bits::none_from;
use octets::byte_at;
use wire::places::STAMP_END;

// What the layout of the header judges: all but the firms and their bits, and the used records against the table's length.
fn numbers_good(s: &[u8; SUM_PLACE], h: Header) -> bool
    requires { h ≡ header_of s.now }
    ensures { result ≡ no_bad_place header_layout s.now }
{
    let threshold = h.threshold.0;
    let count = h.count as usize;
    (h.day <= CLOSED)
        & (1 <= count)
        & (count <= MOST_FIRMS)
        & (byte_at(s, 2) == TABLE_FORM)
        & (h.last < STAMP_END)
        & (FIRST_REFERENCE <= h.reference)
        & (h.reference <= END_OF_REFERENCES)
        & (LOWEST_THRESHOLD <= threshold)
        & (threshold <= HIGHEST_THRESHOLD)
}

// The firms are asked behind the numbers, which hold the count to eight, and not in a row with them: measured, it is faster. Their bits need the count
// held so.
pub fn header_sound(s: &[u8; SUM_PLACE], records: usize) -> bool
    ensures { result ≡ header_sound s.now records }
{
    let h = header_of(s);
    let count = h.count as usize;
    numbers_good(s, h)
        && ((h.used as usize <= records)
            & firms_shaped(h.firms, count)
            & rest_blank(h.firms, count)
            & none_from(h.blocked, count))
}
