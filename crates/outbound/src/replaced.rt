// Replaced (U, 80 bytes): an order took the place of another, with what is open of it.
ghost use Rattle.wire.specs.Messages.{replaced};
ghost use Rattle.outbound.specs.Outbound.{replaced_of, replaced_bytes, replaced_values};
ghost use Rattle.outbound.specs.Faithful.{replaced-faithful};

use crate::head::headed;
use crate::stated::{Stated, parse_stated, put_stated};
use answers::Answer;
use wire::body::{Body, Written};
use wire::judge::judge;
use wire::messages::Message;
use wire::spelling::{put_letter, put_text};

#[derive(Clone, Copy)]
pub struct Replaced {
    pub stamp: u64,
    pub token: [u8; 14],
    pub order: Stated,
    pub previous: [u8; 14],
    pub weight: u8,
}

impl Body for Replaced {
    ghost layout = { replaced };

    ghost of_bytes = { replaced_of };

    fn size() -> usize {
        Message::Replaced.size()
    }

    fn judged(s: &[u8]) -> Answer {
        judge(s, Message::Replaced)
    }

    fn parse(s: &[u8]) -> Self {
        Replaced {
            stamp: octets::be64(s, 1),
            token: octets::bytes_at(s, 9),
            order: parse_stated(s),
            previous: octets::bytes_at(s, 65),
            weight: octets::byte_at(s, 79),
        }
    }
}

impl Written for Replaced {
    ghost bytes = { replaced_bytes };

    fn message() -> Message {
        Message::Replaced
    }

    fn spell(self) -> [u8; 80] {
        let mut t = headed(b'U', self.stamp, self.token);
        put_stated(&mut t, self.order);
        put_text(&mut t, 65, self.previous);
        put_letter(&mut t, 79, self.weight);
        t
    }

    ghost faithful = { (replaced_values, replaced-faithful) };
}
