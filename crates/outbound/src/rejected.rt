// Rejected (J, 24 bytes): an order or a replacement was not taken.
ghost use Rattle.wire.specs.Messages.{rejected};
ghost use Rattle.outbound.specs.Outbound.{rejected_of, rejected_bytes, rejected_values};
ghost use Rattle.outbound.specs.Faithful.{rejected-faithful};

use crate::head::headed;
use answers::Answer;
use wire::body::{Body, Written};
use wire::judge::judge;
use wire::messages::Message;
use wire::spelling::put_letter;

#[derive(Clone, Copy)]
pub struct Rejected {
    pub stamp: u64,
    pub token: [u8; 14],
    pub reason: u8,
}

impl Body for Rejected {
    ghost layout = { rejected };

    ghost of_bytes = { rejected_of };

    fn size() -> usize {
        Message::Rejected.size()
    }

    fn judged(s: &[u8]) -> Answer {
        judge(s, Message::Rejected)
    }

    fn parse(s: &[u8]) -> Self {
        Rejected {
            stamp: octets::be64(s, 1),
            token: octets::bytes_at(s, 9),
            reason: octets::byte_at(s, 23),
        }
    }
}

impl Written for Rejected {
    ghost bytes = { rejected_bytes };

    fn message() -> Message {
        Message::Rejected
    }

    fn spell(self) -> [u8; 80] {
        let mut t = headed(b'J', self.stamp, self.token);
        put_letter(&mut t, 23, self.reason);
        t
    }

    ghost faithful = { (rejected_values, rejected-faithful) };
}
