// The marks of a ring: where the held bytes begin and how many there are.
ghost use Rattle.std.specs.Prelude.{◌≡◌};
ghost use Rattle.outbox.specs.Outbox.{ring_good, around};

pub const SHORTEST_RING: usize = 80;

pub const LONGEST_RING: usize = 65_536;

// The ring itself stands beside them at each call, since a C driver lends its ring and its marks apart.
#[derive(Clone, Copy, PartialEq, Eq)]
pub struct Marks {
    // the read place, below the ring's length
    pub at: usize,
    // the held count, at most the ring's length
    pub held: usize,
}

// Whether a ring of n bytes and its marks are right. Marks come from outside with every call, so every call asks.
pub fn ring_good(n: usize, marks: Marks) -> bool
    ensures { result ≡ ring_good n marks }
{
    SHORTEST_RING <= n && n <= LONGEST_RING && marks.at < n && marks.held <= n
}

// A place of a ring of n bytes, from one that may have passed the end. It never passes the end twice, so no division is needed.
pub(crate) fn around(n: usize, place: usize) -> usize
    ensures { result ≡ around n place }
{
    if place < n { place } else { place - n }
}
