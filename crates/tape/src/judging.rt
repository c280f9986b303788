// Judging an entry: is its kind known and its length the kind's, and if so, where does its first bad byte stand, if there is one.
ghost use Rattle.std.specs.Prelude.{◌≡◌, true, length};
ghost use Rattle.wire.specs.Layout.{first_bad_place};
ghost use Rattle.tape.specs.Kinds.{kind_of};
ghost use Rattle.tape.specs.Entries.{well_formed, bad_place_of, entry_answer};
ghost use Rattle.tape.specs.Behind.{behind_of, judged_fields, Within};

use crate::kinds::{Kind, kind_of, length_of};
use answers::{Answer, Refusal};
use wire::judge::bad_inbound;
use wire::messages::Message;
use wire::places::{
    bad_book_reason, bad_limit_price, bad_liquidity_flag, bad_stamp, bad_stock_state,
    bad_system_event, bad_token, unless_bad,
};

// 2 for a kind or a length, 3 where there is a first bad place, with that place.
#[tactic(auto, unfolding(crate::specs::Entries::entry_answer))]
pub fn judge(entry: &[u8]) -> Answer
    ensures { result ≡ entry_answer entry.now }
{
    let kind = kind_of(entry);
    if !well_formed(entry, kind) {
        return Err(Refusal::Malformed);
    }
    unless_bad(first_bad(entry, kind))
}

// What is no kind has length 0, and no entry has.
#[tactic(auto, unfolding(crate::specs::Entries::well_formed))]
fn well_formed(entry: &[u8], kind: Kind) -> bool
    requires { kind ≡ kind_of entry.now }
    ensures { result ≡ well_formed entry.now }
{
    let length = length_of(kind);
    (length != 0) & (entry.len() == length)
}

// Every body opens with a stamp.
fn first_bad(entry: &[u8], kind: Kind) -> Option<usize>
    requires { (kind ≡ kind_of entry.now) × (well_formed entry.now ≡ true) }
    ensures { result ≡ bad_place_of entry.now }
{
    bad_stamp(entry, 1).or(bad_behind(entry, behind_of(kind)))
}

// The judged fields behind the stamp: what they are and, where that differs from kind to kind, where they stand.
#[derive(Clone, Copy)]
pub enum Behind {
    // what a client sends, judged as the message that it is
    Message(Message),
    // a token, alone or before a flag, a reason or a price
    Token,
    Flag(usize),
    Reason(usize),
    Price,
    // the code of a system event, and no token
    Event,
    // the state of a stock, behind any symbol
    State,
    // a firm and a symbol may be anything: whether the firm is listed is asked later
    Nothing,
}

fn behind_of(kind: Kind) -> Behind
    ensures { result ≡ behind_of kind }
{
    match kind {
        Kind::Enters => Behind::Message(Message::EnterOrder),
        Kind::Replaces => Behind::Message(Message::ReplaceOrder),
        Kind::Cancels => Behind::Message(Message::CancelOrder),
        Kind::Modifies => Behind::Message(Message::ModifyOrder),
        Kind::Executes => Behind::Flag(31),
        Kind::BookCancels => Behind::Reason(27),
        Kind::SelfMatches => Behind::Flag(35),
        Kind::Prioritises => Behind::Price,
        Kind::TurnsLate | Kind::EndsCross => Behind::Token,
        Kind::TellsDay => Behind::Event,
        Kind::SetsStock => Behind::State,
        Kind::Purges | Kind::Disables | Kind::Enables | Kind::Unknown => Behind::Nothing,
    }
}

fn bad_behind(entry: &[u8], behind: Behind) -> Option<usize>
    requires { Within behind (length entry.now) }
    ensures { result ≡ first_bad_place (judged_fields behind) entry.now }
{
    match behind {
        Behind::Message(m) => bad_inbound(entry, 8, m),
        Behind::Token => bad_token(entry, 9),
        Behind::Flag(at) => bad_token(entry, 9).or(bad_liquidity_flag(entry, at)),
        Behind::Reason(at) => bad_token(entry, 9).or(bad_book_reason(entry, at)),
        Behind::Price => bad_token(entry, 9).or(bad_limit_price(entry, 23)),
        Behind::Event => bad_system_event(entry, 9),
        Behind::State => bad_stock_state(entry, 17),
        Behind::Nothing => None,
    }
}
