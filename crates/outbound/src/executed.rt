// Executed (E, 40 bytes): shares of an order were executed.
ghost use Rattle.wire.specs.Messages.{executed};
ghost use Rattle.outbound.specs.Outbound.{executed_of, executed_bytes, executed_values};
ghost use Rattle.outbound.specs.Faithful.{executed-faithful};

use crate::head::headed;
use answers::Answer;
use wire::body::{Body, Written};
use wire::judge::judge;
use wire::messages::Message;
use wire::shares::Removed;
use wire::spelling::{put_integer, put_letter, put_long};

#[derive(Clone, Copy)]
pub struct Executed {
    pub stamp: u64,
    pub token: [u8; 14],
    pub shares: Removed,
    pub price: u32,
    pub flag: u8,
    pub match_number: u64,
}

impl Body for Executed {
    ghost layout = { executed };

    ghost of_bytes = { executed_of };

    fn size() -> usize {
        Message::Executed.size()
    }

    fn judged(s: &[u8]) -> Answer {
        judge(s, Message::Executed)
    }

    fn parse(s: &[u8]) -> Self {
        Executed {
            stamp: octets::be64(s, 1),
            token: octets::bytes_at(s, 9),
            shares: Removed(octets::be32(s, 23)),
            price: octets::be32(s, 27),
            flag: octets::byte_at(s, 31),
            match_number: octets::be64(s, 32),
        }
    }
}

impl Written for Executed {
    ghost bytes = { executed_bytes };

    fn message() -> Message {
        Message::Executed
    }

    fn spell(self) -> [u8; 80] {
        let mut t = headed(b'E', self.stamp, self.token);
        put_integer(&mut t, 23, self.shares.0);
        put_integer(&mut t, 27, self.price);
        put_letter(&mut t, 31, self.flag);
        put_long(&mut t, 32, self.match_number);
        t
    }

    ghost faithful = { (executed_values, executed-faithful) };
}
