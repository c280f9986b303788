// The one judge of all sixteen messages: readers ask it of what came in, writers of what they are about to send.
ghost use Rattle.std.specs.Prelude.{◌≡◌, ◌+◌, ◌<◌, ◌≤◌, length};
ghost use Rattle.wire.specs.Layout.{first_bad_place};
ghost use Rattle.wire.specs.Messages.{message_layout, number, fields_from, framed, read_answer};

use crate::messages::{Message, first_byte};
use crate::places::{bad_side, bad_stamp, bad_sweep, bad_token, unless_bad};
use answers::{Answer, Refusal};

// Length and type, then the judged fields.
#[tactic(auto, unfolding(crate::specs::Messages::read_answer, crate::specs::Messages::framed))]
pub fn judge(s: &[u8], m: Message) -> Answer
    ensures { result ≡ read_answer (message_layout (number m)) s.now }
{
    if is_framed(s, m.size(), m.letter()) {
        return unless_bad(first_bad(s, m));
    }
    Err(Refusal::Malformed)
}

// Whether bytes have a message's length and its type. The purge port's messages, which are none of the sixteen, are asked the same.
pub fn is_framed(s: &[u8], size: usize, letter: u8) -> bool
    ensures { result ≡ framed size letter s.now }
{
    (s.len() == size) & (first_byte(s) == letter)
}

// Where the first bad byte of a message stands: of tokens and stamps everywhere, of side and sweep in what a client sends.
#[tactic(auto, unfolding(crate::specs::Layout::first_bad_place, crate::specs::Layout::bad_place))]
pub(crate) fn first_bad(s: &[u8], m: Message) -> Option<usize>
    requires { length s.now ≡ (message_layout (number m)).size }
    ensures { result ≡ first_bad_place (message_layout (number m)).fields s.now }
{
    match m {
        Message::EnterOrder | Message::ReplaceOrder | Message::CancelOrder | Message::ModifyOrder =>
            bad_inbound(s, 0, m),
        Message::SystemEvent => bad_stamp(s, 1),
        Message::Replaced => bad_stamp(s, 1).or(bad_token(s, 9)).or(bad_token(s, 65)),
        _ => bad_stamp(s, 1).or(bad_token(s, 9)),
    }
}

// The same of what a client sends, wherever it stands: an entry of a tape has it eight bytes further on, behind its stamp.
#[tactic(auto, unfolding(crate::specs::Layout::first_bad_place, crate::specs::Layout::bad_place))]
pub fn bad_inbound(s: &[u8], from: usize, m: Message) -> Option<usize>
    requires { (number m < 4) × ((message_layout (number m)).size + from ≤ length s.now) }
    ensures { result ≡ first_bad_place (fields_from from (number m)) s.now }
{
    let token = bad_token(s, 1 + from);
    match m {
        Message::EnterOrder => token.or(bad_side(s, 15 + from)).or(bad_sweep(s, 42 + from)),
        Message::ReplaceOrder => token
            .or(bad_token(s, 15 + from))
            .or(bad_sweep(s, 42 + from)),
        Message::CancelOrder => token,
        _ => token.or(bad_side(s, 15 + from)),
    }
}
