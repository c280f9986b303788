// How every message of the host begins, but for System Event: the type, the stamp and the order's token.
ghost use Rattle.std.specs.Prelude.{◌≡◌, length};
ghost use Rattle.octets.specs.Bytes.{put, digits, zeros};
ghost use Rattle.wire.specs.Limits.{longest_message};

use wire::spelling::{put_long, put_text, started};

// With zeros behind it. The token is as long as its type says: a caller needs that of a token that it holds in a struct.
pub(crate) fn headed(letter: u8, stamp: u64, token: [u8; 14]) -> [u8; 80]
    ensures { (result ≡ put (put (put (zeros longest_message) 0 (digits 1 letter)) 1 (digits 8 stamp)) 9 token) × (length token ≡ 14) }
{
    let mut t = started(letter);
    put_long(&mut t, 1, stamp);
    put_text(&mut t, 9, token);
    t
}
