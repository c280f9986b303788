// Enter Order (O, 48 bytes): enters an order.
ghost use Rattle.wire.specs.Messages.{enter_order};
ghost use Rattle.inbound.specs.Inbound.{enter_order_of, enter_order_bytes, enter_order_values};
ghost use Rattle.inbound.specs.Faithful.{enter-order-faithful};

use answers::Answer;
use wire::body::{Body, Written};
use wire::judge::judge;
use wire::messages::Message;
use wire::shares::{Removed, Total};
use wire::spelling::{put_integer, put_letter, put_text, started};

#[derive(Clone, Copy)]
pub struct EnterOrder {
    pub token: [u8; 14],
    pub side: u8,
    pub shares: Total,
    pub stock: [u8; 8],
    pub price: u32,
    pub time: u32,
    pub firm: [u8; 4],
    pub display: u8,
    pub capacity: u8,
    pub sweep: u8,
    pub minimum: Removed,
    pub cross: u8,
}

impl Body for EnterOrder {
    ghost layout = { enter_order };

    ghost of_bytes = { enter_order_of };

    fn size() -> usize {
        Message::EnterOrder.size()
    }

    fn judged(s: &[u8]) -> Answer {
        judge(s, Message::EnterOrder)
    }

    fn parse(s: &[u8]) -> Self {
        EnterOrder {
            token: octets::bytes_at(s, 1),
            side: octets::byte_at(s, 15),
            shares: Total(octets::be32(s, 16)),
            stock: octets::bytes_at(s, 20),
            price: octets::be32(s, 28),
            time: octets::be32(s, 32),
            firm: octets::bytes_at(s, 36),
            display: octets::byte_at(s, 40),
            capacity: octets::byte_at(s, 41),
            sweep: octets::byte_at(s, 42),
            minimum: Removed(octets::be32(s, 43)),
            cross: octets::byte_at(s, 47),
        }
    }
}

impl Written for EnterOrder {
    ghost bytes = { enter_order_bytes };

    fn message() -> Message {
        Message::EnterOrder
    }

    fn spell(self) -> [u8; 80] {
        let mut t = started(b'O');
        put_text(&mut t, 1, self.token);
        put_letter(&mut t, 15, self.side);
        put_integer(&mut t, 16, self.shares.0);
        put_text(&mut t, 20, self.stock);
        put_integer(&mut t, 28, self.price);
        put_integer(&mut t, 32, self.time);
        put_text(&mut t, 36, self.firm);
        put_letter(&mut t, 40, self.display);
        put_letter(&mut t, 41, self.capacity);
        put_letter(&mut t, 42, self.sweep);
        put_integer(&mut t, 43, self.minimum.0);
        put_letter(&mut t, 47, self.cross);
        t
    }

    ghost faithful = { (enter_order_values, enter-order-faithful) };
}
