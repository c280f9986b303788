// Broken Trade (B, 32 bytes): an execution was broken.
ghost use Rattle.wire.specs.Messages.{broken_trade};
ghost use Rattle.outbound.specs.Outbound.{broken_trade_of, broken_trade_bytes, broken_trade_values};
ghost use Rattle.outbound.specs.Faithful.{broken-trade-faithful};

use crate::head::headed;
use answers::Answer;
use wire::body::{Body, Written};
use wire::judge::judge;
use wire::messages::Message;
use wire::spelling::{put_letter, put_long};

#[derive(Clone, Copy)]
pub struct BrokenTrade {
    pub stamp: u64,
    pub token: [u8; 14],
    pub match_number: u64,
    pub reason: u8,
}

impl Body for BrokenTrade {
    ghost layout = { broken_trade };

    ghost of_bytes = { broken_trade_of };

    fn size() -> usize {
        Message::BrokenTrade.size()
    }

    fn judged(s: &[u8]) -> Answer {
        judge(s, Message::BrokenTrade)
    }

    fn parse(s: &[u8]) -> Self {
        BrokenTrade {
            stamp: octets::be64(s, 1),
            token: octets::bytes_at(s, 9),
            match_number: octets::be64(s, 23),
            reason: octets::byte_at(s, 31),
        }
    }
}

impl Written for BrokenTrade {
    ghost bytes = { broken_trade_bytes };

    fn message() -> Message {
        Message::BrokenTrade
    }

    fn spell(self) -> [u8; 80] {
        let mut t = headed(b'B', self.stamp, self.token);
        put_long(&mut t, 23, self.match_number);
        put_letter(&mut t, 31, self.reason);
        t
    }

    ghost faithful = { (broken_trade_values, broken-trade-faithful) };
}
