//! What a state says of a variable.

ghost use Rattle.std.specs.Prelude.{◌≡◌, ◌↔◌, IsTrue, Some, slice_get};
ghost use Rattle.values_core.specs.Data.{Val};
ghost use Rattle.values_sets.specs.Membership.{Belongs};
ghost use Rattle.values_sets.specs.Soundness.{IsSound};

use states_core::{Partial, VarId};
use values_core::Value;
use values_sets::{Described, member};

/// Whether the variable has this value.
pub fn has_value(state: &Partial, number: VarId, value: &Value) -> bool
    ensures { IsTrue result ↔ (slice_get state.now number.0 ≡ Some (Some value.now)) }
{
    match state.get(number) {
        Some(known) => known.same(value),
        None => false,
    }
}

/// Whether the variable has one value in both states.
pub fn has_one_value(first: &Partial, second: &Partial, number: VarId) -> bool
    ensures { IsTrue result ↔ ((v : Val) × (slice_get first.now number.0 ≡ Some (Some v)) × (slice_get second.now number.0 ≡ Some (Some v))) }
{
    match first.get(number) {
        Some(known) => has_value(second, number, known),
        None => false,
    }
}

/// Whether the value of the variable is a member of the set.
pub fn has_member(state: &Partial, number: VarId, set: &Described) -> bool
    requires { IsSound set.now }
    ensures { IsTrue result ↔ ((v : Val) × (slice_get state.now number.0 ≡ Some (Some v)) × Belongs set.now v) }
{
    match state.get(number) {
        Some(known) => member(set, known),
        None => false,
    }
}
