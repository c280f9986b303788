// Whether bytes are a sound table. Every step asks this first.
ghost use Rattle.std.specs.Prelude.{◌≡◌, true, ◌&&◌, ◌+◌, ◌-◌, ◌*◌, ◌≤◌};
ghost use Rattle.std.specs.Bool.{beq};
ghost use Rattle.octets.specs.Choice.{all_below};
ghost use Rattle.bitrow.specs.Row.{packed};
ghost use Rattle.orders.specs.Sound.{record_sound};
ghost use Rattle.orders.specs.Order.{is_live};
ghost use Rattle.table.specs.Limits.{most_records};
ghost use Rattle.table.specs.Table.{records_in, used_in, table_size, size_good, record_bytes, order_at, is_marked, bits_good, sum_good, sound};

use crate::places::{bit_bytes, head_bytes, record_bytes, records_in, used};
use crate::store::open_sum;
use crate::walk::walk;
use bitrow::{bit_at, clear_from};
use header::HEADER_SIZE;
use header::sound::header_sound;
use octets::bits::with_bit;
use orders::live::lives;
use orders::record::RECORD_SIZE;

pub const FEWEST_RECORDS: usize = 1;

pub const MOST_RECORDS: usize = 800;

// How long a table of n records is: a header, the records, and the bytes for their bits.
pub fn table_size(n: usize) -> usize
    requires { n ≤ most_records }
    ensures { result ≡ table_size n }
{
    HEADER_SIZE + RECORD_SIZE * n + (n + 7) / 8
}

// 1 to 800 records, and nothing behind their bits.
pub fn size_good(table: &[u8]) -> bool
    ensures { result ≡ size_good table.now }
{
    let n = records_in(table);
    (FEWEST_RECORDS <= n) & (n <= MOST_RECORDS) && table.len() == table_size(n)
}

// The byte of bits that eight records should have. The loop is of a fixed length, and the compiler unrolls it.
fn eight_live(table: &[u8], at: usize) -> u8
    requires { 8 * at + 8 ≤ records_in table.now }
    ensures { result ≡ packed 8 (λ j. is_live (order_at table.now (8 * at + j))) }
{
    let mut byte: u8 = 0;
    for j in 0..8 {
        byte = with_bit(byte, j, lives(record_bytes(table, 8 * at + j)));
    }
    byte
}

// The first m bytes of bits are what they should be: eight records are asked at once.
fn bytes_agree(table: &[u8], m: usize) -> bool
    requires { 8 * m ≤ records_in table.now }
    ensures { result ≡ all_below (8 * m) (λ i. beq (is_marked table.now i) (is_live (order_at table.now i))) }
{
    let bits = bit_bytes(table);
    let mut ok = true;
    for at in 0..m {
        ok = ok & (bits[at] == eight_live(table, at));
    }
    ok
}

// So are the bits of the records from `from` up to n.
fn rest_agrees(table: &[u8], from: usize, n: usize) -> bool
    requires { (from ≤ n) × (n ≤ records_in table.now) }
    ensures { result ≡ all_below (n - from) (λ j. beq (is_marked table.now (from + j)) (is_live (order_at table.now (from + j)))) }
{
    let bits = bit_bytes(table);
    let mut ok = true;
    for i in from..n {
        ok = ok & (bit_at(bits, i) == lives(record_bytes(table, i)));
    }
    ok
}

fn bits_agree(table: &[u8], n: usize) -> bool
    requires { n ≤ records_in table.now }
    ensures { result ≡ all_below n (λ i. beq (is_marked table.now i) (is_live (order_at table.now i))) }
{
    let m = n / 8;
    bytes_agree(table, m) & rest_agrees(table, 8 * m, n)
}

// The records, their bits and the sum, of a table that is as long as it should be.
fn records_sound(table: &[u8]) -> bool
    requires { size_good table.now ≡ true }
    ensures { result ≡ (all_below (used_in table.now) (λ i. record_sound (record_bytes table.now i)) && (bits_good table.now && sum_good table.now)) }
{
    let n = used(table);
    let Some(sum) = walk(table, n) else {
        return false;
    };
    bits_agree(table, n) & clear_from(bit_bytes(table), n) & (open_sum(table) as u64 == sum)
}

pub fn sound(table: &[u8]) -> bool
    ensures { result ≡ sound table.now }
{
    size_good(table) && (header_sound(head_bytes(table), records_in(table)) && records_sound(table))
}
