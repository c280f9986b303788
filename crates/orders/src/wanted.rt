// Which live orders an entry is about that names no token. A table is searched for the first of them, so the test is made on a record's bytes.
ghost use Rattle.std.specs.Prelude.{◌≡◌, ◌&&◌};
ghost use Rattle.octets.specs.Bytes.{same};
ghost use Rattle.orders.specs.Order.{order_of};
ghost use Rattle.orders.specs.Wanted.{meets, is_wanted};

use crate::flags::{Flag, has_flag};
use crate::live::lives;
use crate::record::RECORD_SIZE;
use octets::{byte_at, same_at};

// A firm's orders: those in one stock, or all.
#[derive(Clone, Copy)]
pub struct Wanted {
    pub firm: [u8; 4],
    pub symbol: Option<[u8; 8]>,
}

fn has_firm(r: &[u8; RECORD_SIZE], firm: [u8; 4]) -> bool
    ensures { result ≡ same (order_of r.now).details.kept.firm firm }
{
    same_at(r, 44, &firm)
}

fn has_stock(r: &[u8; RECORD_SIZE], symbol: [u8; 8]) -> bool
    ensures { result ≡ same (order_of r.now).details.kept.stock symbol }
{
    same_at(r, 28, &symbol)
}

// Most orders that are passed over are another firm's, so that is asked first.
fn has_both(r: &[u8; RECORD_SIZE], firm: [u8; 4], symbol: [u8; 8]) -> bool
    ensures { result ≡ (same (order_of r.now).details.kept.firm firm && same (order_of r.now).details.kept.stock symbol) }
{
    has_firm(r, firm) && has_stock(r, symbol)
}

fn meets(r: &[u8; RECORD_SIZE], wanted: Wanted) -> bool
    ensures { result ≡ meets wanted.firm wanted.symbol (order_of r.now) }
{
    match wanted.symbol {
        Some(symbol) => has_both(r, wanted.firm, symbol),
        None => has_firm(r, wanted.firm),
    }
}

// Most records of a long day are dead, so that is asked first.
pub fn is_wanted(r: &[u8; RECORD_SIZE], wanted: Wanted) -> bool
    ensures { result ≡ is_wanted wanted (order_of r.now) }
{
    lives(r) && (!has_flag(byte_at(r, 64), Flag::Late) & meets(r, wanted))
}
