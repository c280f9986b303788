// A message is spelled into eighty bytes, the length of the longest: the type, then field by field at its offset.
ghost use Rattle.std.specs.Prelude.{◌≡◌, ◌+◌, ◌<◌, ◌≤◌, length};
ghost use Rattle.octets.specs.Bytes.{put, digits, zeros};
ghost use Rattle.wire.specs.Limits.{longest_message};

// The type, with zeros behind it.
pub fn started(letter: u8) -> [u8; 80]
    ensures { result ≡ put (zeros longest_message) 0 (digits 1 letter) }
{
    let mut t = [0u8; 80];
    put_letter(&mut t, 0, letter);
    t
}

// Each kind of a field's number has its own writer: the names say at the call what is put.
pub fn put_letter(t: &mut [u8; 80], at: usize, v: u8)
    requires { at < 80 }
    ensures { t.new ≡ put t.old at (digits 1 v) }
{
    octets::put_byte(t, at, v)
}

pub fn put_integer(t: &mut [u8; 80], at: usize, v: u32)
    requires { at + 4 ≤ 80 }
    ensures { t.new ≡ put t.old at (digits 4 v) }
{
    octets::put_be32(t, at, v)
}

pub fn put_long(t: &mut [u8; 80], at: usize, v: u64)
    requires { at + 8 ≤ 80 }
    ensures { t.new ≡ put t.old at (digits 8 v) }
{
    octets::put_be64(t, at, v)
}

// A token, a stock or a firm. What is put is as long as its type says: a caller needs that of a text that it holds in a struct.
pub fn put_text<const N: usize>(t: &mut [u8; 80], at: usize, v: [u8; N])
    requires { at + N ≤ 80 }
    ensures { (t.new ≡ put t.old at v.entry) × (length v.entry ≡ N) }
{
    octets::put_bytes(t, at, &v)
}
