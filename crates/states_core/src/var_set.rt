ghost use Rattle.std.specs.Prelude.{◌≡◌, ◌↔◌, ◌⊎◌, ◌<◌, ℕ, IsTrue};
ghost use Rattle.states_core.specs.VarSets.{Has};

use crate::VarId;
use std::marker::Model;

/// A set of variables with numbers below 64, seen as the number whose binary digits say which variables are in it.
#[derive(Clone, Copy, Debug, Drop, PartialEq, Eq)]
pub struct VarSet {
    digits: u64,
}

impl Model for VarSet {
    ghost use Rattle.std.specs.Prelude.{ℕ};

    ghost Value = { ℕ };

    ghost view = { λ s. s.digits };

    ghost inverse = { λ n. record { digits = n } };
}

impl VarSet {
    /// The set with no variable in it.
    pub fn empty() -> VarSet
        ensures { (x : ℕ) → ¬ Has result x }
    {
        VarSet { digits: 0 }
    }

    /// The set with that variable too.
    pub fn with(self, v: VarId) -> VarSet
        requires below { v.0 < 64 }
        ensures { (x : ℕ) → x < 64 → (Has result x ↔ ((x ≡ v.0) ⊎ Has self x)) }
    {
        VarSet {
            digits: self.digits | (1 << v.0),
        }
    }

    /// Whether the variable is in the set, which none with a number from 64 on is.
    pub fn has(&self, v: VarId) -> bool
        ensures { IsTrue result ↔ Has self.now v.0 }
    {
        let digits = self.digits;
        if v.0 >= 64 {
            return false;
        }
        (digits >> v.0) & 1 == 1
    }
}
