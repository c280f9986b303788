// A line that grows at its end: words, and numbers in decimal.
ghost use Rattle.std.specs.Prelude.{[], ◌++◌, ◌+◌, ◌≤◌, length};
ghost use Rattle.listing.specs.Lines.{decimal, Fits, Adds, Says};

use crate::shown::{Shown, WIDTH};

pub(crate) fn blank() -> Shown
    ensures { Says result [] }
{
    Shown {
        bytes: [0u8; WIDTH],
        len: 0,
    }
}

impl Shown {
    pub(crate) fn said(mut self, words: &[u8]) -> Shown
        requires { Fits self (length words.now) }
        ensures { Adds self words.now result }
    {
        let len = self.len;
        octets::put_bytes(&mut self.bytes, len, words);
        self.len += words.len();
        self
    }

    // The fewest digits that hold n.
    fn number_said(self, n: u64) -> Shown
        requires { Fits self 20 }
        ensures { Adds self (decimal n) result × (result.len ≤ self.len + 20) }
    {
        let mut digits = [0u8; 20];
        let k = io::decimal(n, &mut digits);
        self.said(&digits[..k])
    }

    pub(crate) fn named(self, name: &[u8], n: u64) -> Shown
        requires { Fits self (length name.now + 20) }
        ensures { Adds self (name.now ++ decimal n) result × (result.len ≤ self.len + length name.now + 20) }
    {
        self.said(name).number_said(n)
    }
}
