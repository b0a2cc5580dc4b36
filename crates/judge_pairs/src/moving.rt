ghost use Rattle.std.specs.Prelude.{◌≡◌, ◌≤◌, ◌<◌, ◌↔◌, ◌^◌, All, IfOk, IsTrue, Some, length, slice_get};
ghost use Rattle.values_core.specs.Data.{Val};
ghost use Rattle.steps_lines_defs.specs.Asks.{Moves};
ghost use Rattle.steps_lines_defs.specs.Says.{IsState};
ghost use Rattle.judge_pairs.specs.Telling.{HasAll};

use logs_updates::Updates;
use states_core::{Partial, State, VarId};
use std::alloc::{AllocError, Global};
use steps_moves::moved;
use values_core::Value;

/// Whether the updates lead from the one state to the other.
pub fn lead(alloc: Global, updates: &Updates, from: &State, to: &State) -> Result<bool, AllocError>
    requires few { length from.now < 2 ^ 16 }
    requires within { All (λ u. u.path.variable.0 < length from.now) updates.now }
    requires state { IsState (length from.now) to.now }
    ensures { IfOk result (λ lead. IsTrue lead ↔ Moves updates.now from.now to.now) }
{
    let made = moved(alloc, updates, from)?;
    match made {
        Some(places) => Ok(is_within(&places, to, from.values().len() as u16)),
        None => Ok(false),
    }
}

/// Whether each value of the places is the state's.
fn is_within(places: &Partial, state: &State, count: u16) -> bool
    requires { length places.now ≤ count }
    ensures { IsTrue result ↔ HasAll places.now state.now }
{
    for index in 0..count {
        if !keeps(places, state, VarId(index)) {
            return false;
        }
    }
    true
}

/// Whether the variable's value, where its place has one, is the state's.
fn keeps(places: &Partial, state: &State, variable: VarId) -> bool
    ensures { IsTrue result ↔ ((v : Val) → slice_get places.now variable.0 ≡ Some (Some v) → slice_get state.now variable.0 ≡ Some v) }
{
    match places.get(variable) {
        None => true,
        Some(value) => has(state, variable, value),
    }
}

/// Whether the variable has this value.
fn has(state: &State, variable: VarId, value: &Value) -> bool
    ensures { IsTrue result ↔ (slice_get state.now variable.0 ≡ Some value.now) }
{
    match state.get(variable.0 as usize) {
        None => false,
        Some(other) => other.same(value),
    }
}
