// Cancel Pending (P, 23 bytes): a cancel waits for the cross.
ghost use Rattle.wire.specs.Messages.{cancel_pending};
ghost use Rattle.outbound.specs.Outbound.{cancel_pending_of, cancel_pending_bytes, cancel_pending_values};
ghost use Rattle.outbound.specs.Faithful.{cancel-pending-faithful};

use crate::head::headed;
use answers::Answer;
use wire::body::{Body, Written};
use wire::judge::judge;
use wire::messages::Message;

#[derive(Clone, Copy)]
pub struct CancelPending {
    pub stamp: u64,
    pub token: [u8; 14],
}

impl Body for CancelPending {
    ghost layout = { cancel_pending };

    ghost of_bytes = { cancel_pending_of };

    fn size() -> usize {
        Message::CancelPending.size()
    }

    fn judged(s: &[u8]) -> Answer {
        judge(s, Message::CancelPending)
    }

    fn parse(s: &[u8]) -> Self {
        CancelPending {
            stamp: octets::be64(s, 1),
            token: octets::bytes_at(s, 9),
        }
    }
}

impl Written for CancelPending {
    ghost bytes = { cancel_pending_bytes };

    fn message() -> Message {
        Message::CancelPending
    }

    fn spell(self) -> [u8; 80] {
        headed(b'P', self.stamp, self.token)
    }

    ghost faithful = { (cancel_pending_values, cancel-pending-faithful) };
}
