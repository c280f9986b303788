// Priority Update (T, 36 bytes): an order has another price, display and reference.
ghost use Rattle.wire.specs.Messages.{priority_update};
ghost use Rattle.outbound.specs.Outbound.{priority_update_of, priority_update_bytes, priority_update_values};
ghost use Rattle.outbound.specs.Faithful.{priority-update-faithful};

use crate::head::headed;
use answers::Answer;
use wire::body::{Body, Written};
use wire::judge::judge;
use wire::messages::Message;
use wire::spelling::{put_integer, put_letter, put_long};

#[derive(Clone, Copy)]
pub struct PriorityUpdate {
    pub stamp: u64,
    pub token: [u8; 14],
    pub price: u32,
    pub display: u8,
    pub reference: u64,
}

impl Body for PriorityUpdate {
    ghost layout = { priority_update };

    ghost of_bytes = { priority_update_of };

    fn size() -> usize {
        Message::PriorityUpdate.size()
    }

    fn judged(s: &[u8]) -> Answer {
        judge(s, Message::PriorityUpdate)
    }

    fn parse(s: &[u8]) -> Self {
        PriorityUpdate {
            stamp: octets::be64(s, 1),
            token: octets::bytes_at(s, 9),
            price: octets::be32(s, 23),
            display: octets::byte_at(s, 27),
            reference: octets::be64(s, 28),
        }
    }
}

impl Written for PriorityUpdate {
    ghost bytes = { priority_update_bytes };

    fn message() -> Message {
        Message::PriorityUpdate
    }

    fn spell(self) -> [u8; 80] {
        let mut t = headed(b'T', self.stamp, self.token);
        put_integer(&mut t, 23, self.price);
        put_letter(&mut t, 27, self.display);
        put_long(&mut t, 28, self.reference);
        t
    }

    ghost faithful = { (priority_update_values, priority-update-faithful) };
}
