ghost use Rattle.std.specs.Prelude.{◌↔◌, IsTrue};

use base_clocks::Stamps;

/// A clock of a line.
pub trait Clock {
    ghost above: { Self → Self → Type 0 };

    /// Whether it is above the other.
    fn is_above(&self, other: &Self) -> bool
        ensures { IsTrue result ↔ above self.now other.now };
}

impl Clock for i64 {
    ghost use Rattle.base_cuts.specs.Orders.{IsGreater};

    ghost above = { IsGreater };

    fn is_above(&self, other: &i64) -> bool {
        *other < *self
    }
}

impl Clock for Stamps {
    ghost use Rattle.base_clocks.specs.Stamps.{IsAbove};

    ghost above = { IsAbove };

    fn is_above(&self, other: &Stamps) -> bool {
        self.exceeds(other)
    }
}
