// A line: the first `len` of the bytes. (By value, with its length beside it: no heap.)
ghost use Rattle.std.specs.Prelude.{◌≤◌};

// The longest line is the drawing's, with its three numbers.
pub(crate) const WIDTH: usize = 144;

#[derive(Clone, Copy)]
pub struct Shown {
    pub bytes: [u8; WIDTH],
    pub len: usize,
    pub ghost within: { len ≤ 144 },
}
