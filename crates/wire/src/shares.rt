// The two kinds of share number. A total counts from the start of an order's chain; removed shares are the step between two totals. The two
// meet here and, where an order's executed and self-matched shares are added over 64 bits, in `orders::counts`, and nowhere else.
ghost use Rattle.std.specs.Prelude.{◌≡◌, ◌+◌, ◌<◌, ◌^◌};
ghost use Rattle.wire.specs.Shares.{◌less◌, ◌grown_by◌, ◌cut_by◌, ◌minus◌};

// Liable, executed, self-matched, an intended size, the Shares of O, U and M, a threshold.
#[derive(Clone, Copy, PartialEq, Eq, PartialOrd, Ord)]
pub struct Total(pub u32);

// A decrement, an execution, what is open, a minimum.
#[derive(Clone, Copy, PartialEq, Eq, PartialOrd, Ord)]
pub struct Removed(pub u32);

impl Total {
    // The step down to another total; none where that is not below.
    pub fn less(self, other: Total) -> Removed
        ensures { result ≡ self less other }
    {
        Removed(self.0.saturating_sub(other.0))
    }

    pub fn grown_by(self, by: Removed) -> Total
        requires { self.0 + by.0 < 2 ^ 32 }
        ensures { result ≡ self grown_by by }
    {
        Total(self.0 + by.0)
    }

    // A total is never cut below 0.
    pub fn cut_by(self, by: Removed) -> Total
        ensures { result ≡ self cut_by by }
    {
        Total(self.0.saturating_sub(by.0))
    }
}

impl Removed {
    // What goes from these down to the others; nothing where those are not below.
    pub fn minus(self, other: Removed) -> Removed
        ensures { result ≡ self minus other }
    {
        Removed(self.0.saturating_sub(other.0))
    }
}
