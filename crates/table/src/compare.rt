// Two tokens compared, from the last byte backwards: eight bytes at once, then four, then two, and none in front of those that differ. Each number's
// bytes are copied out first: read from the slice itself their order would be turned around, in each record anew. (`==` begins in front, where the
// tokens of a day are alike.) The two in front are seldom asked for and are read one by one: with the shorter code of two numbers of that width the loop
// over the records may take twice as long, as it happens to lie in memory.
ghost use Rattle.std.specs.Prelude.{◌≡◌, length};
ghost use Rattle.wire.specs.Limits.{token_size};
ghost use Rattle.table.specs.Backwards.{same_backwards};

use octets::{bytes_at, number_at};

pub(crate) fn same_backwards(a: &[u8], b: &[u8]) -> bool
    requires { (length a.now ≡ token_size) × (length b.now ≡ token_size) }
    ensures { result ≡ same_backwards token_size a.now b.now }
{
    u64::from_be_bytes(bytes_at(a, 6)) == u64::from_be_bytes(bytes_at(b, 6))
        && (u32::from_be_bytes(bytes_at(a, 2)) == u32::from_be_bytes(bytes_at(b, 2))
            && number_at(a, 0, 2) == number_at(b, 0, 2))
}
