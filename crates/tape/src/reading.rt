// Reading an entry that was judged into values. Each asks for the length that its kind fixes and for nothing else: a clause, since an array of that
// length would be made of the entry, by one more test, at every call.
ghost use Rattle.std.specs.Prelude.{◌≡◌, ◌+◌, ◌≤◌, length};
ghost use Rattle.tape.specs.Entries.{stamp_of, token_end, names_order, token_of, execution_of, book_cancel_of, self_match_of, priority_of, system_of, stock_state_of, purges, purge_of, blocking_of, message_in, enter_of, replace_of, cancel_of, modify_of};

use crate::entry::{
    Blocking, BookCancel, Execution, Priority, Purge, SelfMatch, StockState, System,
};
use inbound::cancel_order::CancelOrder;
use inbound::enter_order::EnterOrder;
use inbound::modify_order::ModifyOrder;
use inbound::replace_order::ReplaceOrder;
use octets::{be32, be64, byte_at, bytes_at};
use wire::body::Body;
use wire::shares::Removed;

// Every body opens with a stamp.
#[tactic(auto, unfolding(crate::specs::Entries::stamp_of))]
pub fn stamp_of(entry: &[u8]) -> u64
    requires { 9 ≤ length entry.now }
    ensures { result ≡ stamp_of entry.now }
{
    be64(entry, 1)
}

// The kinds that name no token, s h w d n, are shorter than the others are to the end of their token.
pub const TOKEN_END: usize = 23;

#[tactic(auto, unfolding(crate::specs::Entries::names_order))]
pub fn names_order(entry: &[u8]) -> bool
    ensures { result ≡ names_order entry.now }
{
    TOKEN_END <= entry.len()
}

// A w names an order by its firm and symbol.
#[tactic(auto, unfolding(crate::specs::Entries::purges))]
pub fn purges(entry: &[u8]) -> bool
    ensures { result ≡ purges entry.now }
{
    matches!(entry, [b'w', ..])
}

// The token that an entry names first: the order that it is about, and in O the new one.
#[tactic(auto, unfolding(crate::specs::Entries::token_of))]
pub fn token_of(entry: &[u8]) -> [u8; 14]
    requires { token_end ≤ length entry.now }
    ensures { result ≡ token_of entry.now }
{
    bytes_at(entry, 9)
}

#[tactic(auto, unfolding(crate::specs::Entries::execution_of))]
pub fn execution_of(entry: &[u8]) -> Execution
    requires { length entry.now ≡ 40 }
    ensures { result ≡ execution_of entry.now }
{
    Execution {
        shares: Removed(be32(entry, 23)),
        price: be32(entry, 27),
        flag: byte_at(entry, 31),
        match_number: be64(entry, 32),
    }
}

#[tactic(auto, unfolding(crate::specs::Entries::book_cancel_of))]
pub fn book_cancel_of(entry: &[u8]) -> BookCancel
    requires { length entry.now ≡ 28 }
    ensures { result ≡ book_cancel_of entry.now }
{
    BookCancel {
        shares: Removed(be32(entry, 23)),
        reason: byte_at(entry, 27),
    }
}

#[tactic(auto, unfolding(crate::specs::Entries::self_match_of))]
pub fn self_match_of(entry: &[u8]) -> SelfMatch
    requires { length entry.now ≡ 36 }
    ensures { result ≡ self_match_of entry.now }
{
    SelfMatch {
        shares: Removed(be32(entry, 23)),
        prevented: Removed(be32(entry, 27)),
        price: be32(entry, 31),
        flag: byte_at(entry, 35),
    }
}

#[tactic(auto, unfolding(crate::specs::Entries::priority_of))]
pub fn priority_of(entry: &[u8]) -> Priority
    requires { length entry.now ≡ 27 }
    ensures { result ≡ priority_of entry.now }
{
    Priority {
        price: be32(entry, 23),
    }
}

#[tactic(auto, unfolding(crate::specs::Entries::system_of))]
pub fn system_of(entry: &[u8]) -> System
    requires { length entry.now ≡ 10 }
    ensures { result ≡ system_of entry.now }
{
    System {
        event: byte_at(entry, 9),
    }
}

#[tactic(auto, unfolding(crate::specs::Entries::stock_state_of))]
pub fn stock_state_of(entry: &[u8]) -> StockState
    requires { length entry.now ≡ 18 }
    ensures { result ≡ stock_state_of entry.now }
{
    StockState {
        symbol: bytes_at(entry, 9),
        state: byte_at(entry, 17),
    }
}

#[tactic(auto, unfolding(crate::specs::Entries::purge_of))]
pub fn purge_of(entry: &[u8]) -> Purge
    requires { length entry.now ≡ 21 }
    ensures { result ≡ purge_of entry.now }
{
    Purge {
        firm: bytes_at(entry, 9),
        symbol: bytes_at(entry, 13),
    }
}

#[tactic(auto, unfolding(crate::specs::Entries::blocking_of))]
pub fn blocking_of(entry: &[u8]) -> Blocking
    requires { length entry.now ≡ 13 }
    ensures { result ≡ blocking_of entry.now }
{
    Blocking {
        firm: bytes_at(entry, 9),
    }
}

// From its eighth byte on an entry of a client is the client's message, but for the type's byte, at which no parser looks.
#[tactic(auto, unfolding(crate::specs::Entries::message_in))]
fn message_in(entry: &[u8]) -> &[u8]
    requires { 8 ≤ length entry.now }
    ensures { (result.now ≡ message_in entry.now) × (length result.now + 8 ≡ length entry.now) }
{
    &entry[8..]
}

#[tactic(auto, unfolding(crate::specs::Entries::enter_of))]
pub fn enter_of(entry: &[u8]) -> EnterOrder
    requires { length entry.now ≡ 56 }
    ensures { result ≡ enter_of entry.now }
{
    EnterOrder::parse(message_in(entry))
}

#[tactic(auto, unfolding(crate::specs::Entries::replace_of))]
pub fn replace_of(entry: &[u8]) -> ReplaceOrder
    requires { length entry.now ≡ 55 }
    ensures { result ≡ replace_of entry.now }
{
    ReplaceOrder::parse(message_in(entry))
}

#[tactic(auto, unfolding(crate::specs::Entries::cancel_of))]
pub fn cancel_of(entry: &[u8]) -> CancelOrder
    requires { length entry.now ≡ 27 }
    ensures { result ≡ cancel_of entry.now }
{
    CancelOrder::parse(message_in(entry))
}

#[tactic(auto, unfolding(crate::specs::Entries::modify_of))]
pub fn modify_of(entry: &[u8]) -> ModifyOrder
    requires { length entry.now ≡ 28 }
    ensures { result ≡ modify_of entry.now }
{
    ModifyOrder::parse(message_in(entry))
}
