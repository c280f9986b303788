// Accepted (A, 66 bytes): an order was taken, with what is open of it.
ghost use Rattle.wire.specs.Messages.{accepted};
ghost use Rattle.outbound.specs.Outbound.{accepted_of, accepted_bytes, accepted_values};
ghost use Rattle.outbound.specs.Faithful.{accepted-faithful};

use crate::head::headed;
use crate::stated::{Stated, parse_stated, put_stated};
use answers::Answer;
use wire::body::{Body, Written};
use wire::judge::judge;
use wire::messages::Message;
use wire::spelling::put_letter;

#[derive(Clone, Copy)]
pub struct Accepted {
    pub stamp: u64,
    pub token: [u8; 14],
    pub order: Stated,
    pub weight: u8,
}

impl Body for Accepted {
    ghost layout = { accepted };

    ghost of_bytes = { accepted_of };

    fn size() -> usize {
        Message::Accepted.size()
    }

    fn judged(s: &[u8]) -> Answer {
        judge(s, Message::Accepted)
    }

    fn parse(s: &[u8]) -> Self {
        Accepted {
            stamp: octets::be64(s, 1),
            token: octets::bytes_at(s, 9),
            order: parse_stated(s),
            weight: octets::byte_at(s, 65),
        }
    }
}

impl Written for Accepted {
    ghost bytes = { accepted_bytes };

    fn message() -> Message {
        Message::Accepted
    }

    fn spell(self) -> [u8; 80] {
        let mut t = headed(b'A', self.stamp, self.token);
        put_stated(&mut t, self.order);
        put_letter(&mut t, 65, self.weight);
        t
    }

    ghost faithful = { (accepted_values, accepted-faithful) };
}
