// Modified (M, 28 bytes): an order has another side or size, with what is open of it.
ghost use Rattle.wire.specs.Messages.{modified};
ghost use Rattle.outbound.specs.Outbound.{modified_of, modified_bytes, modified_values};
ghost use Rattle.outbound.specs.Faithful.{modified-faithful};

use crate::head::headed;
use answers::Answer;
use wire::body::{Body, Written};
use wire::judge::judge;
use wire::messages::Message;
use wire::shares::Removed;
use wire::spelling::{put_integer, put_letter};

#[derive(Clone, Copy)]
pub struct Modified {
    pub stamp: u64,
    pub token: [u8; 14],
    pub side: u8,
    pub shares: Removed,
}

impl Body for Modified {
    ghost layout = { modified };

    ghost of_bytes = { modified_of };

    fn size() -> usize {
        Message::Modified.size()
    }

    fn judged(s: &[u8]) -> Answer {
        judge(s, Message::Modified)
    }

    fn parse(s: &[u8]) -> Self {
        Modified {
            stamp: octets::be64(s, 1),
            token: octets::bytes_at(s, 9),
            side: octets::byte_at(s, 23),
            shares: Removed(octets::be32(s, 24)),
        }
    }
}

impl Written for Modified {
    ghost bytes = { modified_bytes };

    fn message() -> Message {
        Message::Modified
    }

    fn spell(self) -> [u8; 80] {
        let mut t = headed(b'M', self.stamp, self.token);
        put_letter(&mut t, 23, self.side);
        put_integer(&mut t, 24, self.shares.0);
        t
    }

    ghost faithful = { (modified_values, modified-faithful) };
}
