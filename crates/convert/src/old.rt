// The old form of a table: where its records stand, and when it is sound. It is judged by what judges a table of today, header and records alike; only
// the length, byte 2, the four bytes of the sum and the bits are other.
ghost use Rattle.std.specs.Prelude.{◌≡◌, true, ◌≤◌, length};
ghost use Rattle.octets.specs.Choice.{all_below};
ghost use Rattle.header.specs.Limits.{header_size};
ghost use Rattle.orders.specs.Sound.{record_sound};
ghost use Rattle.table.specs.Table.{record_bytes};
ghost use Rattle.convert.specs.Old.{old_records, old_size_good, old_used, renewed, old_sound};

use header::sound::header_sound;
use header::{HEADER_SIZE, SUM_PLACE, TABLE_FORM};
use octets::{are_zero, be32, byte_at};
use orders::record::RECORD_SIZE;
use table::sound::{FEWEST_RECORDS, MOST_RECORDS};
use table::walk::walk;

// The form of the table, in byte 2.
const OLD_FORM: u8 = 0;

// How many records the old table has room for.
#[tactic(auto, unfolding(crate::specs::Old::old_records))]
pub(crate) fn old_records(old: &[u8]) -> usize
    ensures { result ≡ old_records old.now }
{
    old.len().saturating_sub(HEADER_SIZE) / RECORD_SIZE
}

// How many records are used, of those that there are: an old table has no bits behind them, so it has room for others than today's.
#[tactic(auto, unfolding(crate::specs::Old::old_used, crate::specs::Old::old_records, crate::specs::Old::old_header, header::specs::Header::header_of))]
pub(crate) fn old_used(old: &[u8]) -> usize
    ensures { result ≡ old_used old.now }
{
    if old.len() < HEADER_SIZE {
        return 0;
    }
    let used = be32(&old[0..SUM_PLACE], 4) as usize;
    used.min(old_records(old))
}

// 1 to 800 records, and nothing behind them.
#[tactic(auto, unfolding(crate::specs::Old::old_size_good))]
fn size_good(old: &[u8]) -> bool
    ensures { result ≡ old_size_good old.now }
{
    let n = old_records(old);
    (FEWEST_RECORDS..=MOST_RECORDS).contains(&n) && old.len() == HEADER_SIZE + RECORD_SIZE * n
}

// The bytes of the header's value with the form of today.
pub(crate) fn renewed(old: &[u8]) -> [u8; SUM_PLACE]
    requires { header_size ≤ length old.now }
    ensures { result ≡ renewed old.now }
{
    let mut head = [0; SUM_PLACE];
    head.copy_from_slice(&old[0..SUM_PLACE]);
    head[2] = TABLE_FORM;
    head
}

fn records_sound(old: &[u8]) -> bool
    requires { old_size_good old.now ≡ true }
    ensures { result ≡ all_below (old_used old.now) (λ i. record_sound (record_bytes old.now i)) }
{
    walk(old, old_used(old)).is_some()
}

#[tactic(auto, unfolding(crate::specs::Old::old_sound))]
pub fn old_sound(old: &[u8]) -> bool
    ensures { result ≡ old_sound old.now }
{
    if !size_good(old) {
        return false;
    }
    byte_at(old, 2) == OLD_FORM
        && header_sound(&renewed(old), old_records(old))
        && are_zero(old, SUM_PLACE, 4)
        && records_sound(old)
}
