// Storing a record, the only way that one is written: the bit that says whether it is live and the sum of open shares are kept here, and nowhere
// else.
ghost use Rattle.std.specs.Prelude.{◌≡◌, ◌≤◌, length};
ghost use Rattle.octets.specs.Bytes.{put};
ghost use Rattle.header.specs.Limits.{header_size};
ghost use Rattle.orders.specs.Order.{order_bytes};
ghost use Rattle.table.specs.Table.{record_place, HasRecord, open_sum, with_mark, open_before, counted, store_record, store_order};

use crate::places::{bit_bytes, record_bytes, record_place, records_in};
use bitrow::{bit_at, set_bit};
use header::{HEADER_SIZE, SUM_PLACE};
use octets::{be32, put_number};
use orders::live::{lives, open_in};
use orders::order::Order;
use orders::record::{RECORD_SIZE, put_order};
use wire::shares::Removed;

// How much is open of all orders, as bytes 60 to 63 say.
pub(crate) fn open_sum(table: &[u8]) -> u32
    requires { header_size ≤ length table.now }
    ensures { result ≡ open_sum table.now }
{
    be32(table, SUM_PLACE)
}

// What the record adds to the sum as it is. A record behind the used ones may hold anything; its bit is not set.
fn open_before(table: &[u8], i: usize) -> Removed
    requires { HasRecord table.now i }
    ensures { result.0 ≡ open_before table.now i }
{
    if bit_at(bit_bytes(table), i) {
        return open_in(record_bytes(table, i));
    }
    Removed(0)
}

fn place_order(table: &mut [u8], i: usize, o: Order)
    requires { HasRecord table.old i }
    ensures { (table.new ≡ put table.old (record_place i) (order_bytes o)) × (HasRecord table.new i) }
{
    let place = record_place(table, i);
    put_order(&mut table[place..place + RECORD_SIZE], o);
}

fn mark(table: &mut [u8], i: usize, live: bool)
    requires { HasRecord table.old i }
    ensures { (table.new ≡ with_mark table.old i live) × (header_size ≤ length table.new) }
{
    let place = HEADER_SIZE + RECORD_SIZE * records_in(table);
    set_bit(&mut table[place..], i, live);
}

// What is kept of a record is kept of the bytes that stand there. In a damaged table less may be said to be open of all orders than of one.
fn count(table: &mut [u8], i: usize, before: Removed)
    requires { HasRecord table.old i }
    ensures { table.new ≡ counted table.old i before.0 }
{
    let r = record_bytes(table, i);
    let live = lives(r);
    let sum = open_sum(table) as u64 + open_in(r).0 as u64;
    mark(table, i, live);
    put_number(table, SUM_PLACE, 4, sum.saturating_sub(before.0 as u64));
}

fn store_record(table: &mut [u8], i: usize, o: Order)
    requires { HasRecord table.old i }
    ensures { table.new ≡ store_record table.old i (order_bytes o) }
{
    let before = open_before(table, i);
    place_order(table, i, o);
    count(table, i, before);
}

pub fn store_order(table: &mut [u8], i: usize, o: Order)
    ensures { table.new ≡ store_order table.old i o }
{
    if i < records_in(table) {
        store_record(table, i, o);
    }
}
