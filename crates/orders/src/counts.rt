// The three counts of an order, liable, executed and self-matched, and what is open of it.
ghost use Rattle.std.specs.Prelude.{◌≡◌, ◌+◌, ◌≤◌};
ghost use Rattle.wire.specs.Shares.{◌is_below◌, ◌equals◌, ◌less◌};
ghost use Rattle.orders.specs.Counts.{gone, open_shares, with_liable, cut, executing, self_matching, new_counts};

use wire::shares::{Removed, Total};

// Totals all; `matched` are the self-matched shares.
#[derive(Clone, Copy)]
pub struct Counts {
    pub liable: Total,
    pub executed: Total,
    pub matched: Total,
}

// Executed and self-matched shares added over 64 bits, where no two counts overflow: so it can be asked of counts that nobody has judged.
fn gone_wide(s: Counts) -> u64
    ensures { result ≡ (gone s).0 }
{
    s.executed.0 as u64 + s.matched.0 as u64
}

pub fn gone_is_below(s: Counts, t: Total) -> bool
    ensures { result ≡ gone s is_below t }
{
    gone_wide(s) < t.0 as u64
}

pub fn gone_equals(s: Counts, t: Total) -> bool
    ensures { result ≡ gone s equals t }
{
    gone_wide(s) == t.0 as u64
}

// What would be open of a total; nothing where no more than it is gone.
pub fn less_gone(t: Total, s: Counts) -> Removed
    ensures { result ≡ t less gone s }
{
    Removed((t.0 as u64).saturating_sub(gone_wide(s)) as u32)
}

pub fn open_shares(s: Counts) -> Removed
    ensures { result ≡ open_shares s }
{
    less_gone(s.liable, s)
}

pub fn with_liable(s: Counts, liable: Total) -> Counts
    ensures { result ≡ with_liable s liable }
{
    Counts { liable, ..s }
}

pub fn cut(s: Counts, by: Removed) -> Counts
    ensures { result ≡ cut s by }
{
    with_liable(s, s.liable.cut_by(by))
}

pub fn executing(s: Counts, by: Removed) -> Counts
    requires { s.executed.0 + by.0 ≤ s.liable.0 }
    ensures { result ≡ executing s by }
{
    Counts {
        executed: s.executed.grown_by(by),
        ..s
    }
}

pub fn self_matching(s: Counts, by: Removed) -> Counts
    requires { s.matched.0 + by.0 ≤ s.liable.0 }
    ensures { result ≡ self_matching s by }
{
    Counts {
        matched: s.matched.grown_by(by),
        ..s
    }
}

// An order as entered: nothing is gone of it yet.
pub fn new_counts(liable: Total) -> Counts
    ensures { result ≡ new_counts liable }
{
    Counts {
        liable,
        executed: Total(0),
        matched: Total(0),
    }
}
