// The flags of an order. Each is a bit of one byte, and no change of one touches another, the bits that nobody names among them.
ghost use Rattle.std.specs.Prelude.{◌≡◌};
ghost use Rattle.orders.specs.Flags.{bit_of, has_flag, set_flag, clear_flag};

#[derive(Clone, Copy)]
pub enum Flag {
    Late,
    Pending,
    RejectSent,
}

fn bit_of(flag: Flag) -> u8
    ensures { result ≡ bit_of flag }
{
    match flag {
        Flag::Late => 1,
        Flag::Pending => 2,
        Flag::RejectSent => 4,
    }
}

pub(crate) fn has_flag(flags: u8, flag: Flag) -> bool
    ensures { result ≡ has_flag flags flag }
{
    flags / bit_of(flag) % 2 == 1
}

pub(crate) fn set_flag(flags: u8, flag: Flag) -> u8
    ensures { result ≡ set_flag flags flag }
{
    if has_flag(flags, flag) {
        return flags;
    }
    flags + bit_of(flag)
}

pub(crate) fn clear_flag(flags: u8, flag: Flag) -> u8
    ensures { result ≡ clear_flag flags flag }
{
    if has_flag(flags, flag) {
        return flags - bit_of(flag);
    }
    flags
}
