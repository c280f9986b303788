// The converter: an old table rebuilt as one of today in a second lent buffer. The old one is only read, and the second is written only if all of it
// can be.
#![tactic(auto)]

pub mod old;

ghost use Rattle.std.specs.Prelude.{◌≡◌, ◌+◌, ◌≤◌, length};
ghost use Rattle.bitrow.specs.Row.{bytes_for};
ghost use Rattle.header.specs.Limits.{header_size};
ghost use Rattle.convert.specs.Old.{old_records};
ghost use Rattle.convert.specs.Convert.{convert_answer, carried, with_orders, converted};

use crate::old::{old_records, old_sound, old_used, renewed};
use answers::{Answer, Refusal};
use header::{HEADER_SIZE, SUM_PLACE};
use octets::{put_bytes, put_number};
use orders::record::order_of;
use table::places::record_at;
use table::sound::table_size;
use table::store::store_order;

// 10 before 13: how long the new table is, only a sound old one says.
#[tactic(auto, unfolding(crate::specs::Convert::convert_answer))]
fn convert_answer(old: &[u8], m: usize) -> Answer
    ensures { result ≡ convert_answer old.now m }
{
    if !old_sound(old) {
        return Err(Refusal::NotSound);
    }
    if m != table_size(old_records(old)) {
        return Err(Refusal::NoRoom);
    }
    Ok(())
}

// Every byte of the second buffer is written, one run behind the other, so that nothing is left of what it held.
fn carry(old: &[u8], table: &mut [u8])
    requires { (header_size ≤ length old.now) × (length table.old ≡ length old.now + bytes_for (old_records old.now)) }
    ensures { table.new ≡ carried old.now }
{
    let head = renewed(old);
    let end = old.len();
    let bits = table.len() - end;
    put_bytes(table, 0, &head);
    put_number(table, SUM_PLACE, 4, 0);
    put_bytes(table, HEADER_SIZE, &old[HEADER_SIZE..end]);
    put_number(table, end, bits, 0);
}

// Each order is stored where it stands already, since that makes its bit and adds to the sum.
fn store_orders(old: &[u8], table: &mut [u8], n: usize)
    requires { n ≤ old_records old.now }
    ensures { table.new ≡ with_orders old.now n table.old }
{
    for i in 0..n {
        store_order(table, i, order_of(record_at(old, i)));
    }
}

pub fn convert(old: &[u8], table: &mut [u8]) -> Answer
    ensures { (result ≡ convert_answer old.now (length table.old)) × (table.new ≡ converted old.now table.old) }
{
    convert_answer(old, table.len())?;
    carry(old, table);
    store_orders(old, table, old_used(old));
    Ok(())
}
