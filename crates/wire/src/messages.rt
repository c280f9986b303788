// The sixteen messages, inbound first: their lengths and types, and which of them a type names.
ghost use Rattle.std.specs.Prelude.{◌≡◌, get_or};
ghost use Rattle.wire.specs.Messages.{message_layout, number, inbound, outbound, length_for, message_length};

#[derive(Clone, Copy, PartialEq, Eq)]
pub enum Message {
    EnterOrder,
    ReplaceOrder,
    CancelOrder,
    ModifyOrder,
    SystemEvent,
    Accepted,
    Replaced,
    Canceled,
    AiqCancelled,
    Executed,
    BrokenTrade,
    Rejected,
    CancelPending,
    CancelReject,
    PriorityUpdate,
    Modified,
}

// Their lengths in that order, a constant table as it is asked for by name. Bytes, because a table is copied where it is indexed.
const LENGTHS: [u8; 16] = [
    48, 47, 19, 20, 10, 66, 80, 28, 37, 40, 32, 24, 23, 23, 36, 28,
];

impl Message {
    // The length that its layout says.
    pub fn size(self) -> usize
        ensures { result ≡ (message_layout (number self)).size }
    {
        LENGTHS[self as usize] as usize
    }

    // The type that its layout says.
    pub(crate) fn letter(self) -> u8
        ensures { result ≡ (message_layout (number self)).code }
    {
        match self {
            Message::EnterOrder => b'O',
            Message::ReplaceOrder => b'U',
            Message::CancelOrder => b'X',
            Message::ModifyOrder => b'M',
            Message::SystemEvent => b'S',
            Message::Accepted => b'A',
            Message::Replaced => b'U',
            Message::Canceled => b'C',
            Message::AiqCancelled => b'D',
            Message::Executed => b'E',
            Message::BrokenTrade => b'B',
            Message::Rejected => b'J',
            Message::CancelPending => b'P',
            Message::CancelReject => b'I',
            Message::PriorityUpdate => b'T',
            Message::Modified => b'M',
        }
    }
}

// The type of what came in is its first byte: 0, which is no type, where there is none, as `framed` has it.
pub fn first_byte(s: &[u8]) -> u8
    ensures { result ≡ get_or s.now 0 0 }
{
    match s {
        [first, ..] => *first,
        [] => 0,
    }
}

// The length of the message with this type, 0 where there is none. U and M are inbound or outbound, as the caller says. A flag and a number, as the C
// door hands them on (`pq_message_length`).
pub fn message_length(inbound: bool, letter: u8) -> usize
    ensures { result ≡ message_length inbound letter }
{
    if inbound {
        return length_from_client(letter);
    }
    length_from_host(letter)
}

#[tactic(auto, unfolding(crate::specs::Messages::length_for, crate::specs::Layout::layout_for))]
fn length_from_client(letter: u8) -> usize
    ensures { result ≡ length_for inbound letter }
{
    match letter {
        b'O' => Message::EnterOrder.size(),
        b'U' => Message::ReplaceOrder.size(),
        b'X' => Message::CancelOrder.size(),
        b'M' => Message::ModifyOrder.size(),
        _ => 0,
    }
}

#[tactic(auto, unfolding(crate::specs::Messages::length_for, crate::specs::Layout::layout_for))]
fn length_from_host(letter: u8) -> usize
    ensures { result ≡ length_for outbound letter }
{
    match letter {
        b'S' => Message::SystemEvent.size(),
        b'A' => Message::Accepted.size(),
        b'U' => Message::Replaced.size(),
        b'C' => Message::Canceled.size(),
        b'D' => Message::AiqCancelled.size(),
        b'E' => Message::Executed.size(),
        b'B' => Message::BrokenTrade.size(),
        b'J' => Message::Rejected.size(),
        b'P' => Message::CancelPending.size(),
        b'I' => Message::CancelReject.size(),
        b'T' => Message::PriorityUpdate.size(),
        b'M' => Message::Modified.size(),
        _ => 0,
    }
}
