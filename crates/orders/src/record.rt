// An order in the 80 bytes of its record: read from them, and spelled as them.
ghost use Rattle.std.specs.Prelude.{◌≡◌, length};
ghost use Rattle.octets.specs.Bytes.{put};
ghost use Rattle.orders.specs.Limits.{record_size};
ghost use Rattle.orders.specs.Order.{order_of, order_bytes};
ghost use Rattle.orders.specs.Runs.{opening, traded, letters, ending};

use crate::counts::Counts;
use crate::order::{Details, Kept, Order, Terms};
use octets::{be32, be64, byte_at, bytes_at, put_array, put_be32, put_be64, put_byte};
use wire::shares::{Removed, Total};

// How many bytes a record has.
pub const RECORD_SIZE: usize = 80;

pub(crate) fn counts_of(s: &[u8; RECORD_SIZE]) -> Counts
    ensures { result ≡ (order_of s.now).shares }
{
    Counts {
        liable: Total(be32(s, 16)),
        executed: Total(be32(s, 20)),
        matched: Total(be32(s, 24)),
    }
}

fn kept_of(s: &[u8; RECORD_SIZE]) -> Kept
    ensures { result ≡ (order_of s.now).details.kept }
{
    Kept {
        stock: bytes_at(s, 28),
        firm: bytes_at(s, 44),
        capacity: byte_at(s, 49),
        cross: byte_at(s, 55),
    }
}

fn terms_of(s: &[u8; RECORD_SIZE]) -> Terms
    ensures { result ≡ (order_of s.now).details.terms }
{
    Terms {
        price: be32(s, 36),
        time: be32(s, 40),
        display: byte_at(s, 48),
        sweep: byte_at(s, 50),
        minimum: Removed(be32(s, 51)),
    }
}

fn details_of(s: &[u8; RECORD_SIZE]) -> Details
    ensures { result ≡ (order_of s.now).details }
{
    Details {
        kept: kept_of(s),
        terms: terms_of(s),
        reference: be64(s, 56),
        previous: bytes_at(s, 65),
        spare: byte_at(s, 79),
    }
}

pub fn order_of(s: &[u8; RECORD_SIZE]) -> Order
    ensures { result ≡ order_of s.now }
{
    Order {
        state: byte_at(s, 0),
        token: bytes_at(s, 1),
        side: byte_at(s, 15),
        shares: counts_of(s),
        flags: byte_at(s, 64),
        details: details_of(s),
    }
}

// The bytes are written in four runs, each from where the last one ended.
fn put_opening(s: &mut [u8; RECORD_SIZE], o: Order)
    ensures { (s.new ≡ put s.old 0 (opening o)) × (length (opening o) ≡ 28) }
{
    put_byte(s, 0, o.state);
    put_array(s, 1, o.token);
    put_byte(s, 15, o.side);
    put_be32(s, 16, o.shares.liable.0);
    put_be32(s, 20, o.shares.executed.0);
    put_be32(s, 24, o.shares.matched.0);
}

fn put_traded(s: &mut [u8; RECORD_SIZE], details: Details)
    ensures { (s.new ≡ put s.old 28 (traded details)) × (length (traded details) ≡ 20) }
{
    put_array(s, 28, details.kept.stock);
    put_be32(s, 36, details.terms.price);
    put_be32(s, 40, details.terms.time);
    put_array(s, 44, details.kept.firm);
}

fn put_letters(s: &mut [u8; RECORD_SIZE], details: Details)
    ensures { (s.new ≡ put s.old 48 (letters details)) × (length (letters details) ≡ 8) }
{
    put_byte(s, 48, details.terms.display);
    put_byte(s, 49, details.kept.capacity);
    put_byte(s, 50, details.terms.sweep);
    put_be32(s, 51, details.terms.minimum.0);
    put_byte(s, 55, details.kept.cross);
}

fn put_ending(s: &mut [u8; RECORD_SIZE], flags: u8, details: Details)
    ensures { (s.new ≡ put s.old 56 (ending flags details)) × (length (ending flags details) ≡ 24) }
{
    put_be64(s, 56, details.reference);
    put_byte(s, 64, flags);
    put_array(s, 65, details.previous);
    put_byte(s, 79, details.spare);
}

// The order's 80 bytes, over what is there. They come as a slice: of a part of the table that is lent as an array the check knows nothing more once
// it is back.
pub fn put_order(s: &mut [u8], o: Order)
    requires { length s.old ≡ record_size }
    ensures { (s.new ≡ order_bytes o) × (length (order_bytes o) ≡ record_size) }
{
    let s = s.as_mut_array().unwrap();
    put_opening(s, o);
    put_traded(s, o.details);
    put_letters(s, o.details);
    put_ending(s, o.flags, o.details);
}
