// w: a firm's orders are canceled, one with each entry.
ghost use Rattle.std.specs.Prelude.{◌≡◌};
ghost use Rattle.octets.specs.Bytes.{all_are};
ghost use Rattle.wire.specs.Letters.{space};
ghost use Rattle.risk.specs.Purge.{wanted_by, purge_rule};

use answers::Refusal;
use header::Header;
use header::firms::is_listed;
use orders::order::{Order, is_live};
use orders::wanted::Wanted;
use rules::plan::Decision;
use rules::replace::canceled_whole;
use tape::entry::Purge;

// Eight spaces name no symbol, and so all of them.
fn names_all(symbol: [u8; 8]) -> bool
    ensures { result ≡ all_are space symbol }
{
    octets::are_all(&symbol, 0, 8, b' ')
}

// The orders that it is about.
pub fn wanted_by(e: Purge) -> Wanted
    ensures { result ≡ wanted_by e }
{
    // the borrow checker takes an array into a literal by a variable alone
    let firm = e.firm;
    let symbol = if names_all(e.symbol) {
        None
    } else {
        Some(e.symbol)
    };
    Wanted { firm, symbol }
}

// `o` is the first of them that is live and not late.
pub fn purge(h: Header, o: Order, e: Purge) -> Decision
    ensures { result ≡ purge_rule h o e }
{
    if !is_listed(h, e.firm) {
        return Err(Refusal::UnlistedFirm);
    }
    if !is_live(o) {
        return Err(Refusal::Ignored);
    }
    canceled_whole(o)
}
