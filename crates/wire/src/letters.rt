// The sets of letters that the rules look at, a question each; those that are only judged are asked in `places`. A byte is compared with each
// letter and the answers are gathered, so none of them branches. The names stay beside `is_among`: they say what is asked, as the definitions do.
#![tactic(auto, unfolding(octets::specs::Choice::text))]

ghost use Rattle.std.specs.Prelude.{◌≡◌};
ghost use Rattle.octets.specs.Choice.{among, text};
ghost use Rattle.wire.specs.Letters.{sell_sides, displays, capacities, crosses, opening_or_closing, stock_states};

pub(crate) fn is_among<const N: usize>(letters: [u8; N], b: u8) -> bool
    ensures { (set : _) → text set ≡ letters.entry → result ≡ among set b }
{
    let mut found = false;
    for letter in &letters {
        found |= b == *letter;
    }
    found
}

pub fn is_sell_side(b: u8) -> bool
    ensures { result ≡ among sell_sides b }
{
    is_among(*b"STE", b)
}

pub fn is_display(b: u8) -> bool
    ensures { result ≡ among displays b }
{
    is_among(*b"AYNPIMW", b)
}

pub fn is_capacity(b: u8) -> bool
    ensures { result ≡ among capacities b }
{
    is_among(*b"APR", b)
}

pub fn is_cross(b: u8) -> bool
    ensures { result ≡ among crosses b }
{
    is_among(*b"NOC", b)
}

pub(crate) fn is_opening_or_closing(b: u8) -> bool
    ensures { result ≡ among opening_or_closing b }
{
    is_among(*b"OC", b)
}

pub fn is_stock_state(b: u8) -> bool
    ensures { result ≡ among stock_states b }
{
    is_among(*b"TH", b)
}
