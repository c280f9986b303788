// Where things stand in the table: the header's part, a record's and that of the bits, and the values in them. A caller need not check that they are
// there: what is no part of the table reads as nothing, and is not stored.
ghost use Rattle.std.specs.Prelude.{◌≡◌, ◌+◌, ◌*◌, ◌≤◌, length};
ghost use Rattle.header.specs.Limits.{header_size};
ghost use Rattle.orders.specs.Limits.{record_size};
ghost use Rattle.table.specs.Table.{records_in, record_place, HasRecord, head_bytes, record_bytes, header, used_in, order_at, bit_bytes, store_header};

use header::{HEADER_SIZE, Header, SUM_PLACE, header_of, put_header};
use orders::order::Order;
use orders::record::{RECORD_SIZE, order_of};

// Eight records and the byte of their bits.
const EIGHT_RECORDS: usize = 641;

// How many records the table has room for, each with its bit. A length that were multiplied before it is divided could overflow.
pub fn records_in(table: &[u8]) -> usize
    ensures { result ≡ records_in table.now }
{
    if table.len() < HEADER_SIZE {
        return 0;
    }
    let room = table.len() - HEADER_SIZE;
    room / EIGHT_RECORDS * 8 + room % EIGHT_RECORDS * 8 / EIGHT_RECORDS
}

// The bytes of the header's value; zeros where the table is too short to have any.
pub(crate) fn head_bytes(table: &[u8]) -> &[u8; SUM_PLACE]
    ensures { result.now ≡ head_bytes table.now }
{
    if table.len() < HEADER_SIZE {
        return &[0; SUM_PLACE];
    }
    table.first_chunk().unwrap()
}

// Where record i begins; all of it lies in the table.
pub(crate) fn record_place(table: &[u8], i: usize) -> usize
    requires { HasRecord table.now i }
    ensures { (result ≡ record_place i) × (result + record_size ≤ length table.now) }
{
    HEADER_SIZE + RECORD_SIZE * i
}

// The 80 bytes of a record that lies in the bytes, whether there are bits behind the records or not. They are cut out before they are taken as an array:
// so the length is seen, and is not asked for each record anew.
pub fn record_at(table: &[u8], i: usize) -> &[u8; RECORD_SIZE]
    requires { header_size + record_size * i + record_size ≤ length table.now }
    ensures { result.now ≡ record_bytes table.now i }
{
    let place = HEADER_SIZE + RECORD_SIZE * i;
    table[place..place + RECORD_SIZE].as_array().unwrap()
}

pub(crate) fn record_bytes(table: &[u8], i: usize) -> &[u8; RECORD_SIZE]
    requires { HasRecord table.now i }
    ensures { result.now ≡ record_bytes table.now i }
{
    record_at(table, i)
}

// The bytes of bits, behind the records; none where the table is too short to have any.
pub(crate) fn bit_bytes(table: &[u8]) -> &[u8]
    ensures { result.now ≡ bit_bytes table.now }
{
    let place = (HEADER_SIZE + RECORD_SIZE * records_in(table)).min(table.len());
    &table[place..]
}

pub fn header(table: &[u8]) -> Header
    ensures { result ≡ header table.now }
{
    header_of(head_bytes(table))
}

// How many records are used, of those that there are; asked by itself since judging and finding need no more of the header, and in words since through
// `head_bytes` the number would be read byte by byte.
pub fn used(table: &[u8]) -> usize
    ensures { result ≡ used_in table.now }
{
    if table.len() < HEADER_SIZE {
        return 0;
    }
    (octets::be32(table, 4) as usize).min(records_in(table))
}

pub(crate) fn order_at(table: &[u8], i: usize) -> Order
    requires { HasRecord table.now i }
    ensures { result ≡ order_at table.now i }
{
    order_of(record_bytes(table, i))
}

// The bytes behind the header's value stay.
pub fn store_header(table: &mut [u8], h: Header)
    ensures { table.new ≡ store_header table.old h }
{
    if HEADER_SIZE <= table.len() {
        put_header(table.first_chunk_mut().unwrap(), h);
    }
}
