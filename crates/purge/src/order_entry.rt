// Disable and Enable Order Entry Request (D and E, 15 bytes): a firm's new orders are kept out, or let in again. The two differ in their type
// alone, so they are one struct over it.
ghost use Rattle.std.specs.Prelude.{◌≡◌};
ghost use Rattle.wire.specs.Messages.{read_answer};
ghost use Rattle.purge.specs.Purge.{order_entry, order_entry_of};

use answers::{Answer, Refusal};
use wire::body::Body;
use wire::judge::is_framed;
use wire::places::{bad_blank, unless_bad};

pub const DISABLE: u8 = b'D';

pub const ENABLE: u8 = b'E';

#[derive(Clone, Copy)]
pub struct OrderEntry<const LETTER: u8> {
    pub user_reference: u32,
    pub firm: [u8; 4],
    pub account: [u8; 6],
}

pub type Disable = OrderEntry<DISABLE>;

pub type Enable = OrderEntry<ENABLE>;

// Length and type, then a blank account, by a letter that a caller may have from outside.
pub fn judge_order_entry(s: &[u8], letter: u8) -> Answer
    ensures { result ≡ read_answer (order_entry letter) s.now }
{
    if is_framed(s, 15, letter) {
        return unless_bad(bad_blank(s, 9, 6));
    }
    Err(Refusal::Malformed)
}

impl<const LETTER: u8> Body for OrderEntry<LETTER> {
    ghost layout = { order_entry LETTER };

    ghost of_bytes = { order_entry_of };

    fn size() -> usize {
        15
    }

    fn judged(s: &[u8]) -> Answer {
        judge_order_entry(s, LETTER)
    }

    fn parse(s: &[u8]) -> Self {
        OrderEntry {
            user_reference: octets::be32(s, 1),
            firm: octets::bytes_at(s, 5),
            account: octets::bytes_at(s, 9),
        }
    }
}
