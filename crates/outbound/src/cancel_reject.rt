// Cancel Reject (I, 23 bytes): a cancel came too late for the cross.
ghost use Rattle.wire.specs.Messages.{cancel_reject};
ghost use Rattle.outbound.specs.Outbound.{cancel_reject_of, cancel_reject_bytes, cancel_reject_values};
ghost use Rattle.outbound.specs.Faithful.{cancel-reject-faithful};

use crate::head::headed;
use answers::Answer;
use wire::body::{Body, Written};
use wire::judge::judge;
use wire::messages::Message;

#[derive(Clone, Copy)]
pub struct CancelReject {
    pub stamp: u64,
    pub token: [u8; 14],
}

impl Body for CancelReject {
    ghost layout = { cancel_reject };

    ghost of_bytes = { cancel_reject_of };

    fn size() -> usize {
        Message::CancelReject.size()
    }

    fn judged(s: &[u8]) -> Answer {
        judge(s, Message::CancelReject)
    }

    fn parse(s: &[u8]) -> Self {
        CancelReject {
            stamp: octets::be64(s, 1),
            token: octets::bytes_at(s, 9),
        }
    }
}

impl Written for CancelReject {
    ghost bytes = { cancel_reject_bytes };

    fn message() -> Message {
        Message::CancelReject
    }

    fn spell(self) -> [u8; 80] {
        headed(b'I', self.stamp, self.token)
    }

    ghost faithful = { (cancel_reject_values, cancel-reject-faithful) };
}
