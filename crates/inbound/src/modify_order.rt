// Modify Order (M, 20 bytes): changes the side of an order or cuts its shares.
ghost use Rattle.wire.specs.Messages.{modify_order};
ghost use Rattle.inbound.specs.Inbound.{modify_order_of, modify_order_bytes, modify_order_values};
ghost use Rattle.inbound.specs.Faithful.{modify-order-faithful};

use answers::Answer;
use wire::body::{Body, Written};
use wire::judge::judge;
use wire::messages::Message;
use wire::shares::Total;
use wire::spelling::{put_integer, put_letter, put_text, started};

#[derive(Clone, Copy)]
pub struct ModifyOrder {
    pub token: [u8; 14],
    pub side: u8,
    pub shares: Total,
}

impl Body for ModifyOrder {
    ghost layout = { modify_order };

    ghost of_bytes = { modify_order_of };

    fn size() -> usize {
        Message::ModifyOrder.size()
    }

    fn judged(s: &[u8]) -> Answer {
        judge(s, Message::ModifyOrder)
    }

    fn parse(s: &[u8]) -> Self {
        ModifyOrder {
            token: octets::bytes_at(s, 1),
            side: octets::byte_at(s, 15),
            shares: Total(octets::be32(s, 16)),
        }
    }
}

impl Written for ModifyOrder {
    ghost bytes = { modify_order_bytes };

    fn message() -> Message {
        Message::ModifyOrder
    }

    fn spell(self) -> [u8; 80] {
        let mut t = started(b'M');
        put_text(&mut t, 1, self.token);
        put_letter(&mut t, 15, self.side);
        put_integer(&mut t, 16, self.shares.0);
        t
    }

    ghost faithful = { (modify_order_values, modify-order-faithful) };
}
