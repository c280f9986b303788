// A message as a value, and its reader and its writer, once for all of them: whoever says how a message's fields stand in its bytes has both.
ghost use Rattle.std.specs.Prelude.{◌≡◌, ◌≤◌, List, ℕ, length, take};
ghost use Rattle.wire.specs.Limits.{longest_message};
ghost use Rattle.wire.specs.Layout.{Layout, Values};
ghost use Rattle.wire.specs.Faithful.{Faithful};
ghost use Rattle.wire.specs.Messages.{message_layout, number, in_eighty, read_answer, read_as, where_done, write_answer, buffer_after};

use crate::judge::{first_bad, judge};
use crate::messages::Message;
use crate::places::unless_bad;
use answers::{Answer, Refusal};

// What is read: the fields of a message of this layout, from bytes that were judged.
pub trait Body: Copy {
    // how its bytes lie, and its value from them
    ghost layout: { Layout };

    ghost of_bytes: { List ℕ → Self };

    // How long it is.
    fn size() -> usize
        ensures { (result ≡ layout.size) × (layout.size ≤ longest_message) };

    // What its reader answers.
    fn judged(s: &[u8]) -> Answer
        ensures { result ≡ read_answer layout s.now };

    // For a caller that has judged already: the type is not looked at.
    fn parse(s: &[u8]) -> Self
        requires { length s.now ≡ layout.size }
        ensures { result ≡ of_bytes s.now };
}

// One of the sixteen, which are written too.
pub trait Written: Body {
    // its bytes from its value
    ghost bytes: { Self → List ℕ };

    fn message() -> Message
        ensures { message_layout (number result) ≡ Self.layout };

    // The message at the front of eighty bytes, the length of the longest.
    fn spell(self) -> [u8; 80]
        ensures { (result ≡ in_eighty (bytes self)) × (length (bytes self) ≡ Self.layout.size) };

    // Reading and writing are each other's inverses, and the answers are given exactly when the paper says.
    ghost faithful: { (values : Self → Values Self.Body.layout.fields) × Faithful Self.Body.layout Self.Body.of_bytes bytes values };
}

// What a reader gives: its answer, and the fields, which are all zero where the answer is a refusal (the rule paper: so they stand beside it).
#[derive(Clone, Copy)]
pub struct Reading<M> {
    pub answer: Answer,
    pub body: M,
}

impl<M: Copy> Reading<M> {
    // The fields where they are legal, and else why they are not.
    pub fn legal(self) -> Result<M, Refusal>
        ensures { result ≡ where_done self.answer self.body }
    {
        match self.answer {
            Ok(()) => Ok(self.body),
            Err(refusal) => Err(refusal),
        }
    }
}

// Takes every input: it judges first, and its answers are the paper's.
#[tactic(auto, unfolding(crate::specs::Messages::legal_or_zeros, answers::specs::Answer::if_done, answers::specs::Answer::is_done))]
pub fn read<M: Body>(s: &[u8]) -> Reading<M>
    ensures { result ≡ read_as M.layout M.of_bytes s.now }
{
    let zeros = [0u8; 80];
    let answer = M::judged(s);
    match answer {
        Ok(()) => Reading {
            answer,
            body: M::parse(s),
        },
        Err(_) => Reading {
            answer,
            body: M::parse(&zeros[..M::size()]),
        },
    }
}

// Puts the message into the buffer, where it is legal and there is room; the bytes behind it stay.
pub fn write<M: Written>(buffer: &mut [u8], m: M) -> Answer
    ensures { (result ≡ write_answer M.Body.layout (M.bytes m) buffer.old) × (buffer.new ≡ buffer_after M.Body.layout (M.bytes m) buffer.old) }
{
    send(buffer, m.spell(), M::message())
}

// The message with which the spelled bytes begin.
#[tactic(auto, unfolding(crate::specs::Messages::write_answer, crate::specs::Messages::buffer_after, answers::specs::Answer::if_done, answers::specs::Answer::is_done))]
pub fn send(buffer: &mut [u8], spelled: [u8; 80], m: Message) -> Answer
    ensures { (result ≡ write_answer (message_layout (number m)) (take (message_layout (number m)).size spelled) buffer.old) × (buffer.new ≡ buffer_after (message_layout (number m)) (take (message_layout (number m)).size spelled) buffer.old) }
{
    let n = m.size();
    let bytes = &spelled[0..n];
    unless_bad(first_bad(bytes, m))?;
    if buffer.len() < n {
        return Err(Refusal::NoRoom);
    }
    octets::put_bytes(buffer, 0, bytes);
    Ok(())
}
