// An entry of the tape from a message and the time at which it came. The message is judged as by its reader; the stamp is taken as it is, since
// the step that takes the entry judges it.
#![tactic(auto)]

ghost use Rattle.std.specs.Prelude.{◌≡◌, true, false, ◌∷◌, ◌++◌, ◌+◌, ◌≤◌, length};
ghost use Rattle.octets.specs.Bytes.{put, digits};
ghost use Rattle.answers.specs.Answer.{Done};
ghost use Rattle.stamping.specs.Stamping.{heard, kind_for, body_for, stamp_answer, stamp_after};

use answers::{Answer, Refusal};
use inbound::cancel_order::CancelOrder;
use inbound::enter_order::EnterOrder;
use inbound::modify_order::ModifyOrder;
use inbound::replace_order::ReplaceOrder;
use octets::{put_be64, put_byte, put_bytes};
use purge::mass_cancel::MassCancel;
use purge::order_entry::{Disable, Enable};
use tape::kinds::entry_length;
use wire::body::Body;
use wire::messages::first_byte;

// What the purge port took, or else a client's message to the host: a flag, as the C door has it (`pq_entry`). Only a call that answers 0 changes
// anything.
pub fn stamped(purge: bool, stamp: u64, message: &[u8], entry: &mut [u8]) -> Answer
    ensures { (result ≡ stamp_answer purge stamp message.now entry.old) × (entry.new ≡ stamp_after purge stamp message.now entry.old) }
{
    heard(purge, message)?;
    made(purge, stamp, message, entry)
}

// What the message's own reader answers.
fn heard(purge: bool, message: &[u8]) -> Answer
    ensures { result ≡ heard purge message.now }
{
    if purge {
        heard_by_purge(message)
    } else {
        heard_by_host(message)
    }
}

#[tactic(auto, unfolding(crate::specs::Stamping::heard, wire::specs::Layout::layout_for))]
fn heard_by_purge(message: &[u8]) -> Answer
    ensures { result ≡ heard true message.now }
{
    match message {
        [b'M', ..] => MassCancel::judged(message),
        [b'D', ..] => Disable::judged(message),
        [b'E', ..] => Enable::judged(message),
        _ => Err(Refusal::Malformed),
    }
}

#[tactic(auto, unfolding(crate::specs::Stamping::heard, wire::specs::Layout::layout_for))]
fn heard_by_host(message: &[u8]) -> Answer
    ensures { result ≡ heard false message.now }
{
    match message {
        [b'O', ..] => EnterOrder::judged(message),
        [b'U', ..] => ReplaceOrder::judged(message),
        [b'X', ..] => CancelOrder::judged(message),
        [b'M', ..] => ModifyOrder::judged(message),
        _ => Err(Refusal::Malformed),
    }
}

// The kind under which a message of this type goes.
#[tactic(auto, unfolding(crate::specs::Stamping::kind_for))]
fn kind_for(purge: bool, letter: u8) -> u8
    ensures { result ≡ kind_for purge letter }
{
    match (purge, letter) {
        (true, b'M') => b'w',
        (true, b'D') => b'd',
        (true, _) => b'n',
        (false, _) => letter,
    }
}

// The entry of a message that was judged, where there is room for it.
fn made(purge: bool, stamp: u64, message: &[u8], entry: &mut [u8]) -> Answer
    requires { heard purge message.now ≡ Done }
    ensures { (result ≡ stamp_answer purge stamp message.now entry.old) × (entry.new ≡ stamp_after purge stamp message.now entry.old) }
{
    let kind = kind_for(purge, first_byte(message));
    if entry.len() < entry_length(kind) {
        return Err(Refusal::NoRoom);
    }
    if purge {
        put_purge(entry, kind, stamp, message);
    } else {
        put_entry(entry, kind, stamp, &message[1..]);
    }
    Ok(())
}

// The firm, and of a Mass Cancel the symbol behind it.
fn put_purge(entry: &mut [u8], kind: u8, stamp: u64, message: &[u8])
    requires { (heard true message.now ≡ Done) × (9 + length (body_for true message.now) ≤ length entry.old) }
    ensures { entry.new ≡ put entry.old 0 (kind ∷ (digits 8 stamp ++ body_for true message.now)) }
{
    put_entry(entry, kind, stamp, &message[5..9]);
    if first_byte(message) == b'M' {
        put_bytes(entry, 13, &message[15..23]);
    }
}

// The kind, the stamp, and a body behind them.
fn put_entry(entry: &mut [u8], kind: u8, stamp: u64, body: &[u8])
    requires { 9 + length body.now ≤ length entry.old }
    ensures { entry.new ≡ put entry.old 0 (kind ∷ (digits 8 stamp ++ body.now)) }
{
    put_byte(entry, 0, kind);
    put_be64(entry, 1, stamp);
    put_bytes(entry, 9, body);
}
