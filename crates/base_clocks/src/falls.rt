ghost use Rattle.std.specs.Prelude.{◌↔◌, ◌<◌, IsTrue, MatchOption};
ghost use Rattle.base_clocks.specs.Falls.{IsFirstFall};
ghost use Rattle.base_clocks.specs.Stamps.{IsAbove, IsAtMost, number};

use crate::stamp::Stamp;
use crate::stamps::Stamps;
use base_core::Text;

impl Stamps {
    /// Whether no node has a greater number than in the other clock.
    pub fn is_at_most(&self, other: &Stamps) -> bool
        ensures { IsTrue result ↔ IsAtMost self.now other.now }
    {
        match self.first_fall(other) {
            Some(_) => false,
            None => true,
        }
    }

    /// Whether the other clock is at most this one, and they differ at a node.
    pub fn exceeds(&self, other: &Stamps) -> bool
        ensures { IsTrue result ↔ IsAbove self.now other.now }
    {
        if !other.is_at_most(self) {
            return false;
        }
        match self.first_fall(other) {
            Some(_) => true,
            None => false,
        }
    }

    /// The first node of this clock whose number in the other is less, if there is one.
    pub fn first_fall(&self, other: &Stamps) -> Option<&Text>
        ensures { MatchOption result (IsAtMost self.now other.now) (λ node. IsFirstFall self.now other.now node.now) }
    {
        fall_in(self.items(), other)
    }
}

fn fall_in<'a>(stamps: &'a [Stamp], other: &Stamps) -> Option<&'a Text>
    ensures { MatchOption result (IsAtMost stamps.now other.now) (λ node. IsFirstFall stamps.now other.now node.now) }
{
    for stamp in stamps {
        if falls(stamp, other) {
            return Some(&stamp.node);
        }
    }
    None
}

/// Whether the other clock gives the stamp's node a lower number.
fn falls(stamp: &Stamp, other: &Stamps) -> bool
    ensures { IsTrue result ↔ (number other.now stamp.now.node < stamp.now.number) }
{
    other.number(&stamp.node) < stamp.number
}
