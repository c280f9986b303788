// Cancel Order (X, 19 bytes): cuts an order down to an intended size, which is a total.
ghost use Rattle.wire.specs.Messages.{cancel_order};
ghost use Rattle.inbound.specs.Inbound.{cancel_order_of, cancel_order_bytes, cancel_order_values};
ghost use Rattle.inbound.specs.Faithful.{cancel-order-faithful};

use answers::Answer;
use wire::body::{Body, Written};
use wire::judge::judge;
use wire::messages::Message;
use wire::shares::Total;
use wire::spelling::{put_integer, put_text, started};

#[derive(Clone, Copy)]
pub struct CancelOrder {
    pub token: [u8; 14],
    pub size: Total,
}

impl Body for CancelOrder {
    ghost layout = { cancel_order };

    ghost of_bytes = { cancel_order_of };

    fn size() -> usize {
        Message::CancelOrder.size()
    }

    fn judged(s: &[u8]) -> Answer {
        judge(s, Message::CancelOrder)
    }

    fn parse(s: &[u8]) -> Self {
        CancelOrder {
            token: octets::bytes_at(s, 1),
            size: Total(octets::be32(s, 15)),
        }
    }
}

impl Written for CancelOrder {
    ghost bytes = { cancel_order_bytes };

    fn message() -> Message {
        Message::CancelOrder
    }

    fn spell(self) -> [u8; 80] {
        let mut t = started(b'X');
        put_text(&mut t, 1, self.token);
        put_integer(&mut t, 15, self.size.0);
        t
    }

    ghost faithful = { (cancel_order_values, cancel-order-faithful) };
}
