// When the 80 bytes of a used record are sound. A table is judged record by record at every step, so the tests of a token and of a state are
// gathered without a branch. Between the two stands one, which in a sound table always goes the same way: measured, it is faster.
ghost use Rattle.std.specs.Prelude.{◌≡◌};
ghost use Rattle.wire.specs.Layout.{no_bad_place};
ghost use Rattle.orders.specs.Counts.{Counts};
ghost use Rattle.orders.specs.Order.{record_layout};
ghost use Rattle.orders.specs.Sound.{liable_good, counted_sound, state_verdict, verdict_on};

use crate::counts::{Counts, gone_equals, gone_is_below, open_shares};
use crate::record::{RECORD_SIZE, counts_of};
use octets::{are_zero, byte_at};
use wire::shares::{Removed, Total};
use wire::text::is_token_byte;

// No order is liable for more.
pub const MOST_SHARES: u32 = 999_999;

// The token stands behind the state's byte; what follows it is 65 bytes.
const TOKEN_END: usize = 15;

// A record's token is legal. The loop takes 32 bytes, of which those outside the token are free: in steps of 16 it is much the faster.
fn token_legal(r: &[u8; RECORD_SIZE]) -> bool
    ensures { result ≡ no_bad_place record_layout r.now }
{
    let mut ok = true;
    for k in 0..32 {
        ok = ok & ((k == 0) | (TOKEN_END <= k) | is_token_byte(r[k]));
    }
    ok
}

fn liable_good(s: Counts) -> bool
    ensures { result ≡ liable_good s }
{
    s.liable.0 <= MOST_SHARES
}

// A live or a dead order's state beside its counts.
fn counted_sound(state: u8, s: Counts) -> bool
    ensures { result ≡ counted_sound state s }
{
    ((state == b'L') & gone_is_below(s, s.liable) & liable_good(s))
        | ((state == b'D') & gone_equals(s, s.liable) & liable_good(s))
}

// What is open of a record whose token is legal; none where it is not sound.
fn state_verdict(r: &[u8; RECORD_SIZE]) -> Option<Removed>
    ensures { result ≡ state_verdict r.now }
{
    let state = byte_at(r, 0);
    if state == b'R' {
        return are_zero(r, TOKEN_END, RECORD_SIZE - TOKEN_END).then_some(Removed(0));
    }
    let s = counts_of(r);
    counted_sound(state, s).then_some(open_shares(s))
}

// What is open of a record; none where it is not sound. Its counts are read once, for both.
pub fn judge_record(r: &[u8; RECORD_SIZE]) -> Option<Removed>
    ensures { result ≡ verdict_on r.now }
{
    if token_legal(r) {
        return state_verdict(r);
    }
    None
}
