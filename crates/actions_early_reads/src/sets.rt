//! Sets of variables.

ghost use Rattle.std.specs.Prelude.{◌≡◌, ◌≤◌, ◌<◌, false, not, true};
ghost use Rattle.actions_meanings.specs.Outcomes.{least, outside};
ghost use Rattle.actions_meanings.specs.Reads.{in_none, united, with_variable};
ghost use Rattle.actions_early_reads.specs.Sets.{shown};

use states_core::{VarId, VarSet};

/// No variables.
pub fn none() -> VarSet
    ensures { shown result ≡ in_none }
{
    VarSet::empty()
}

/// Whether a variable is in the set.
pub fn is_in(set: VarSet, variable: u16) -> bool
    ensures { result ≡ shown set variable }
{
    variable < 64 && set.has(VarId(variable))
}

/// The set with that variable too.
pub fn with(set: VarSet, variable: u16) -> VarSet
    requires below { variable < 64 }
    ensures { shown result ≡ with_variable (shown set) variable }
{
    set.with(VarId(variable))
}

/// The set with that variable too, if it is below 64.
pub fn with_any(set: VarSet, variable: u16) -> VarSet
    ensures { variable < 64 → shown result ≡ with_variable (shown set) variable }
{
    if variable < 64 {
        return with(set, variable);
    }
    set
}

/// The variables of either.
pub fn united(first: VarSet, second: VarSet) -> VarSet
    ensures { shown result ≡ united (shown first) (shown second) }
{
    let mut all = first;
    for variable in 0..64u16 {
        all = with_if(all, variable, is_in(second, variable));
    }
    all
}

/// The set, with that variable too where that is asked for.
fn with_if(set: VarSet, variable: u16, wanted: bool) -> VarSet
    requires below { variable < 64 }
    ensures added { wanted ≡ true → shown result ≡ with_variable (shown set) variable }
    ensures kept { wanted ≡ false → result ≡ set }
{
    if wanted {
        return with(set, variable);
    }
    set
}

/// The least variable of a set that another lacks.
pub fn least_outside(fixed: VarSet, set: VarSet, variables: u16) -> Option<u16>
    ensures { result ≡ least variables (outside (shown fixed) (shown set)) }
{
    for variable in 0..variables {
        if is_in(set, variable) && !is_in(fixed, variable) {
            return Some(variable);
        }
    }
    None
}

/// The least variable that a set lacks.
pub fn least_missing(set: VarSet, variables: u16) -> Option<u16>
    ensures { result ≡ least variables (λ x. not (shown set x)) }
{
    for variable in 0..variables {
        if !is_in(set, variable) {
            return Some(variable);
        }
    }
    None
}
