ghost use Rattle.std.specs.Prelude.{Some, refl};
ghost use Rattle.std.specs.Cmp.{partial_equiv_from_equiv, po};
ghost use Rattle.std.specs.Cmp.Lexicographic.{lists_equiv, lists_per, lists_ties, lists_total};
ghost use Rattle.std.proofs.Common.{ap};
ghost use Rattle.states_core.specs.StateOrder.{state_cmp, state_decides, state_eq, state_input};
ghost use Rattle.values_core.specs.Order.{val_cmp};
ghost use Rattle.values_core.specs.OrderLaws.{val_eq_equiv, val_total};

use super::State;
use std::cmp::Ordering;
use std::hash::{Hash, Hasher};

impl PartialEq for State {
    ghost eq = { state_eq };

    ghost laws = { lists_per (partial_equiv_from_equiv val_eq_equiv) };

    fn eq(&self, other: &State) -> bool {
        if self.hash != other.hash {
            return false;
        }
        self.values == other.values
    }
}

impl Eq for State {
    ghost laws = { lists_equiv val_eq_equiv };
}

impl PartialOrd for State {
    ghost partial_cmp = { λ s t. Some (state_cmp s t) };

    ghost laws = { po (lists_total val_total) (lists_ties val_cmp (λ a b. refl)) };

    fn partial_cmp(&self, other: &State) -> Option<Ordering> {
        Some(self.cmp(other))
    }
}

impl Ord for State {
    ghost cmp = { state_cmp };

    ghost total = { lists_total val_total };

    ghost matches_partial_cmp = { λ s t. refl };

    ghost matches_eq = { lists_ties val_cmp (λ a b. refl) };

    fn cmp(&self, other: &State) -> Ordering {
        self.values.as_slice().cmp(&other.values.as_slice())
    }
}

impl Hash for State {
    ghost hash_input = { state_input };

    ghost respects_eq = { λ s t e. ap state_input ((state_decides s t).0 e) };

    fn hash<H: Hasher>(&self, state: &mut H) {
        state.write_u64(self.hash)
    }
}
