// Canceled (C, 28 bytes): shares were taken off an order.
ghost use Rattle.wire.specs.Messages.{canceled};
ghost use Rattle.outbound.specs.Outbound.{canceled_of, canceled_bytes, canceled_values};
ghost use Rattle.outbound.specs.Faithful.{canceled-faithful};

use crate::head::headed;
use answers::Answer;
use wire::body::{Body, Written};
use wire::judge::judge;
use wire::messages::Message;
use wire::shares::Removed;
use wire::spelling::{put_integer, put_letter};

#[derive(Clone, Copy)]
pub struct Canceled {
    pub stamp: u64,
    pub token: [u8; 14],
    pub decrement: Removed,
    pub reason: u8,
}

impl Body for Canceled {
    ghost layout = { canceled };

    ghost of_bytes = { canceled_of };

    fn size() -> usize {
        Message::Canceled.size()
    }

    fn judged(s: &[u8]) -> Answer {
        judge(s, Message::Canceled)
    }

    fn parse(s: &[u8]) -> Self {
        Canceled {
            stamp: octets::be64(s, 1),
            token: octets::bytes_at(s, 9),
            decrement: Removed(octets::be32(s, 23)),
            reason: octets::byte_at(s, 27),
        }
    }
}

impl Written for Canceled {
    ghost bytes = { canceled_bytes };

    fn message() -> Message {
        Message::Canceled
    }

    fn spell(self) -> [u8; 80] {
        let mut t = headed(b'C', self.stamp, self.token);
        put_integer(&mut t, 23, self.decrement.0);
        put_letter(&mut t, 27, self.reason);
        t
    }

    ghost faithful = { (canceled_values, canceled-faithful) };
}
