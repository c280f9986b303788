// The shapes of text that the paper names: what a token holds, and how a stock or a firm is written.
ghost use Rattle.std.specs.Prelude.{◌≡◌};
ghost use Rattle.wire.specs.Text.{token_byte, shaped};

// A letter, a digit or a space.
pub fn is_token_byte(b: u8) -> bool
    ensures { result ≡ token_byte b }
{
    b.is_ascii_alphanumeric() | (b == b' ')
}

// One capital at least, then capitals, then spaces to the end: stocks and firms of any length. Once a space has come only spaces may follow.
pub fn is_shaped(s: &[u8]) -> bool
    ensures { result ≡ shaped s.now }
{
    let [first, rest @ ..] = s else {
        return false;
    };
    let mut ok = first.is_ascii_uppercase();
    let mut blank = false;
    for b in rest {
        let space = *b == b' ';
        ok &= space | (!blank & b.is_ascii_uppercase());
        blank |= space;
    }
    ok
}
