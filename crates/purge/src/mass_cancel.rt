// Mass Cancel Request (M, 25 bytes): cancels a firm's orders, in one symbol or in all.
ghost use Rattle.purge.specs.Purge.{mass_cancel, mass_cancel_of};

use answers::{Answer, Refusal};
use wire::body::Body;
use wire::judge::is_framed;
use wire::places::{bad_blank, bad_nonzero, unless_bad};

#[derive(Clone, Copy)]
pub struct MassCancel {
    pub user_reference: u32,
    pub firm: [u8; 4],
    pub account: [u8; 6],
    pub symbol: [u8; 8],
    pub appendage_length: u16,
}

impl Body for MassCancel {
    ghost layout = { mass_cancel };

    ghost of_bytes = { mass_cancel_of };

    fn size() -> usize {
        25
    }

    // Length and type, then a blank account, then no appendage.
    fn judged(s: &[u8]) -> Answer {
        if is_framed(s, 25, b'M') {
            return unless_bad(bad_blank(s, 9, 6).or(bad_nonzero(s, 23)));
        }
        Err(Refusal::Malformed)
    }

    fn parse(s: &[u8]) -> Self {
        MassCancel {
            user_reference: octets::be32(s, 1),
            firm: octets::bytes_at(s, 5),
            account: octets::bytes_at(s, 9),
            symbol: octets::bytes_at(s, 15),
            appendage_length: octets::be16(s, 23),
        }
    }
}
