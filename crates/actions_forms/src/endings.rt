//! What the bodies of definitions leave fixed that were walked, so that none is walked twice where the same is fixed before it.

ghost use Rattle.std.specs.Prelude.{◌≡◌, ◌⊎◌, MatchResult, OnOk};
ghost use Rattle.std.specs.Option.{IfSome};
ghost use Rattle.actions_meanings.specs.declared.fault.FormFault.TheVariants.{NoMemory};
ghost use Rattle.actions_forms.specs.declared.endings.Ending.{Ending};
ghost use Rattle.actions_forms.specs.Endings.{Has};

use actions_meanings::FormFault;
use indexmap::IndexMap;
use states_core::{VarId, VarSet};
use std::alloc::Global;

/// The body of the definition of that number leaves a set fixed, where another is fixed before it.
#[derive(Clone, Copy, Drop)]
pub struct Ending {
    pub number: usize,
    pub before: VarSet,
    pub after: VarSet,
}

/// What is known of bodies that were walked: by the number of the definition, and the digits of the set that is fixed before it.
#[derive(Drop)]
pub struct Endings {
    pub rows: IndexMap<(usize, u64), Ending>,
}

/// The digits of a set, which tell sets apart.
fn digits(set: VarSet) -> u64 {
    let mut digits = 0;
    for variable in 0..64u16 {
        if set.has(VarId(variable)) {
            digits |= 1 << variable;
        }
    }
    digits
}

impl Endings {
    /// Nothing is known.
    pub fn new(alloc: Global) -> Endings
        ensures { (e : Ending) → ¬ Has result e }
    {
        Endings {
            rows: IndexMap::new(alloc),
        }
    }

    /// What the body leaves fixed, where it is known.
    pub fn after(&self, number: usize, before: VarSet) -> Option<VarSet>
        ensures { IfSome result (λ set. Has self.now (record { number = number; before = before; after = set })) }
    {
        match self.rows.get(&(number, digits(before))) {
            Some(ending) => {
                if ending.number == number && ending.before == before {
                    return Some(ending.after);
                }
                None
            }
            None => None,
        }
    }

    /// Notes what a body leaves fixed, and gives it.
    pub fn noted(
        &mut self,
        number: usize,
        before: VarSet,
        after: VarSet,
    ) -> Result<VarSet, FormFault>
        ensures given { MatchResult result (λ set. set ≡ after) (λ f. f ≡ NoMemory) }
        ensures noted { OnOk result ((e : Ending) → Has self.new e → (e ≡ record { number = number; before = before; after = after }) ⊎ Has self.old e) }
    {
        let ending = Ending {
            number,
            before,
            after,
        };
        match self.rows.insert((number, digits(before)), ending) {
            Ok(_) => Ok(after),
            Err(_) => Err(FormFault::NoMemory),
        }
    }
}
