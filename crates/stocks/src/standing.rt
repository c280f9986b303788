// How a symbol stands in the list: all that the rules are told of it.
ghost use Rattle.std.specs.Prelude.{◌≡◌};
ghost use Rattle.stocks.specs.Standing.{is_listed, is_halted};

#[derive(Clone, Copy, PartialEq, Eq)]
pub enum Standing {
    Trading,
    Halted,
    Unlisted,
}

pub fn is_listed(standing: Standing) -> bool
    ensures { result ≡ is_listed standing }
{
    standing != Standing::Unlisted
}

pub fn is_halted(standing: Standing) -> bool
    ensures { result ≡ is_halted standing }
{
    standing == Standing::Halted
}
