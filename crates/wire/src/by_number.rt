// The same of a message by its number, for a caller that was told it: every number is taken, and from 16 on it is no message's, whose layout
// (`no_message`) has not one byte.
ghost use Rattle.std.specs.Prelude.{◌≡◌, MatchOption, take};
ghost use Rattle.wire.specs.Messages.{message_layout, no_message, number, read_answer, write_answer, buffer_after};

use crate::judge::is_framed;
use crate::messages::Message;
use crate::{body, judge};
use answers::{Answer, Refusal};

// The message that has it.
#[tactic(auto, using(crate::proofs::Numbered::unnumbered))]
fn message_of(k: usize) -> Option<Message>
    ensures { MatchOption result (message_layout k ≡ no_message) (λ m. number m ≡ k) }
{
    match k {
        0 => Some(Message::EnterOrder),
        1 => Some(Message::ReplaceOrder),
        2 => Some(Message::CancelOrder),
        3 => Some(Message::ModifyOrder),
        4 => Some(Message::SystemEvent),
        5 => Some(Message::Accepted),
        6 => Some(Message::Replaced),
        7 => Some(Message::Canceled),
        8 => Some(Message::AiqCancelled),
        9 => Some(Message::Executed),
        10 => Some(Message::BrokenTrade),
        11 => Some(Message::Rejected),
        12 => Some(Message::CancelPending),
        13 => Some(Message::CancelReject),
        14 => Some(Message::PriorityUpdate),
        15 => Some(Message::Modified),
        _ => None,
    }
}

// The length that message k's layout says.
pub fn size(k: usize) -> usize
    ensures { result ≡ (message_layout k).size }
{
    match message_of(k) {
        Some(m) => m.size(),
        None => 0,
    }
}

// What the judge answers of message k.
#[tactic(auto, using(crate::proofs::Numbered::unread), unfolding(crate::specs::Messages::read_answer, crate::specs::Messages::framed))]
pub fn judge(s: &[u8], k: usize) -> Answer
    ensures { result ≡ read_answer (message_layout k) s.now }
{
    match message_of(k) {
        Some(m) => judge::judge(s, m),
        None if is_framed(s, 0, 0) => Ok(()),
        None => Err(Refusal::Malformed),
    }
}

// Puts message k, with which the spelled bytes begin, into the buffer, where it is legal and there is room.
pub fn send(buffer: &mut [u8], spelled: [u8; 80], k: usize) -> Answer
    ensures { (result ≡ write_answer (message_layout k) (take (message_layout k).size spelled) buffer.old) × (buffer.new ≡ buffer_after (message_layout k) (take (message_layout k).size spelled) buffer.old) }
{
    match message_of(k) {
        Some(m) => body::send(buffer, spelled, m),
        None => Ok(()),
    }
}
