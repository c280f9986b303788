// Replace Order (U, 47 bytes): replaces a live order by another under a new token.
ghost use Rattle.wire.specs.Messages.{replace_order};
ghost use Rattle.inbound.specs.Inbound.{replace_order_of, replace_order_bytes, replace_order_values};
ghost use Rattle.inbound.specs.Faithful.{replace-order-faithful};

use answers::Answer;
use wire::body::{Body, Written};
use wire::judge::judge;
use wire::messages::Message;
use wire::shares::{Removed, Total};
use wire::spelling::{put_integer, put_letter, put_text, started};

#[derive(Clone, Copy)]
pub struct ReplaceOrder {
    pub existing: [u8; 14],
    pub replacement: [u8; 14],
    pub shares: Total,
    pub price: u32,
    pub time: u32,
    pub display: u8,
    pub sweep: u8,
    pub minimum: Removed,
}

impl Body for ReplaceOrder {
    ghost layout = { replace_order };

    ghost of_bytes = { replace_order_of };

    fn size() -> usize {
        Message::ReplaceOrder.size()
    }

    fn judged(s: &[u8]) -> Answer {
        judge(s, Message::ReplaceOrder)
    }

    fn parse(s: &[u8]) -> Self {
        ReplaceOrder {
            existing: octets::bytes_at(s, 1),
            replacement: octets::bytes_at(s, 15),
            shares: Total(octets::be32(s, 29)),
            price: octets::be32(s, 33),
            time: octets::be32(s, 37),
            display: octets::byte_at(s, 41),
            sweep: octets::byte_at(s, 42),
            minimum: Removed(octets::be32(s, 43)),
        }
    }
}

impl Written for ReplaceOrder {
    ghost bytes = { replace_order_bytes };

    fn message() -> Message {
        Message::ReplaceOrder
    }

    fn spell(self) -> [u8; 80] {
        let mut t = started(b'U');
        put_text(&mut t, 1, self.existing);
        put_text(&mut t, 15, self.replacement);
        put_integer(&mut t, 29, self.shares.0);
        put_integer(&mut t, 33, self.price);
        put_integer(&mut t, 37, self.time);
        put_letter(&mut t, 41, self.display);
        put_letter(&mut t, 42, self.sweep);
        put_integer(&mut t, 43, self.minimum.0);
        t
    }

    ghost faithful = { (replace_order_values, replace-order-faithful) };
}
