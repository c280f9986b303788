// What Accepted and Replaced both state of an order, in the same bytes, 23 to 64.
ghost use Rattle.std.specs.Prelude.{◌≡◌, ◌≤◌, length};
ghost use Rattle.wire.specs.Layout.{PutFields};
ghost use Rattle.wire.specs.Messages.{stated};
ghost use Rattle.outbound.specs.Outbound.{stated_of, stated_values};

use wire::shares::Removed;
use wire::spelling::{put_integer, put_letter, put_long, put_text};

#[derive(Clone, Copy)]
pub struct Stated {
    pub side: u8,
    pub shares: Removed,
    pub stock: [u8; 8],
    pub price: u32,
    pub time: u32,
    pub firm: [u8; 4],
    pub display: u8,
    pub reference: u64,
    pub capacity: u8,
    pub sweep: u8,
    pub minimum: Removed,
    pub cross: u8,
    pub state: u8,
}

pub(crate) fn parse_stated(s: &[u8]) -> Stated
    requires { 65 ≤ length s.now }
    ensures { result ≡ stated_of s.now }
{
    Stated {
        side: octets::byte_at(s, 23),
        shares: Removed(octets::be32(s, 24)),
        stock: octets::bytes_at(s, 28),
        price: octets::be32(s, 36),
        time: octets::be32(s, 40),
        firm: octets::bytes_at(s, 44),
        display: octets::byte_at(s, 48),
        reference: octets::be64(s, 49),
        capacity: octets::byte_at(s, 57),
        sweep: octets::byte_at(s, 58),
        minimum: Removed(octets::be32(s, 59)),
        cross: octets::byte_at(s, 63),
        state: octets::byte_at(s, 64),
    }
}

pub(crate) fn put_stated(t: &mut [u8; 80], order: Stated)
    ensures { PutFields stated (stated_values order) t.old t.new }
{
    put_letter(t, 23, order.side);
    put_integer(t, 24, order.shares.0);
    put_text(t, 28, order.stock);
    put_integer(t, 36, order.price);
    put_integer(t, 40, order.time);
    put_text(t, 44, order.firm);
    put_letter(t, 48, order.display);
    put_long(t, 49, order.reference);
    put_letter(t, 57, order.capacity);
    put_letter(t, 58, order.sweep);
    put_integer(t, 59, order.minimum.0);
    put_letter(t, 63, order.cross);
    put_letter(t, 64, order.state);
}
