// Aiq Cancelled (D, 37 bytes): shares were taken off an order to prevent a self match.
ghost use Rattle.wire.specs.Messages.{aiq_cancelled};
ghost use Rattle.outbound.specs.Outbound.{aiq_cancelled_of, aiq_cancelled_bytes, aiq_cancelled_values};
ghost use Rattle.outbound.specs.Faithful.{aiq-cancelled-faithful};

use crate::head::headed;
use answers::Answer;
use wire::body::{Body, Written};
use wire::judge::judge;
use wire::messages::Message;
use wire::shares::Removed;
use wire::spelling::{put_integer, put_letter};

#[derive(Clone, Copy)]
pub struct AiqCancelled {
    pub stamp: u64,
    pub token: [u8; 14],
    pub decrement: Removed,
    pub reason: u8,
    pub prevented: Removed,
    pub price: u32,
    pub flag: u8,
}

impl Body for AiqCancelled {
    ghost layout = { aiq_cancelled };

    ghost of_bytes = { aiq_cancelled_of };

    fn size() -> usize {
        Message::AiqCancelled.size()
    }

    fn judged(s: &[u8]) -> Answer {
        judge(s, Message::AiqCancelled)
    }

    fn parse(s: &[u8]) -> Self {
        AiqCancelled {
            stamp: octets::be64(s, 1),
            token: octets::bytes_at(s, 9),
            decrement: Removed(octets::be32(s, 23)),
            reason: octets::byte_at(s, 27),
            prevented: Removed(octets::be32(s, 28)),
            price: octets::be32(s, 32),
            flag: octets::byte_at(s, 36),
        }
    }
}

impl Written for AiqCancelled {
    ghost bytes = { aiq_cancelled_bytes };

    fn message() -> Message {
        Message::AiqCancelled
    }

    fn spell(self) -> [u8; 80] {
        let mut t = headed(b'D', self.stamp, self.token);
        put_integer(&mut t, 23, self.decrement.0);
        put_letter(&mut t, 27, self.reason);
        put_integer(&mut t, 28, self.prevented.0);
        put_integer(&mut t, 32, self.price);
        put_letter(&mut t, 36, self.flag);
        t
    }

    ghost faithful = { (aiq_cancelled_values, aiq-cancelled-faithful) };
}
