//! Whether a state may stay as it is in a line's step.

ghost use Rattle.std.specs.Prelude.{◌≡◌, ◌≤◌, ◌↔◌, ℕ, IsTrue, OnOk, Some, length, slice_get};
ghost use Rattle.values_core.specs.Data.{Val};
ghost use Rattle.eval_meanings.specs.Laws.{IsWithin};
ghost use Rattle.steps_successors.specs.Taken.{AddsIf, MayRest};

use base_core::NoMemory;
use logs_updates::Line;
use states_core::{Partial, VarId};
use std::alloc::Global;
use steps_moves::agrees;
use values_core::Value;

/// Whether the state before may stay as it is in the step of the line, whose updates make these places of it.
pub fn rests(stutter: bool, line: &Line, places: &Partial, whole: &Partial, count: u16) -> bool
    requires { length places.now ≤ count }
    ensures { IsTrue result ↔ MayRest stutter line.now places.now whole.now }
{
    if !stutter {
        return false;
    }
    match &line.event {
        Some(_) => false,
        None => is_within(places, whole, count) && agrees(line.sees.items(), whole),
    }
}

/// Adds the state before to what is found, where it may stay as it is.
pub fn add_rest(
    alloc: Global,
    found: &mut Vec<Partial>,
    stays: bool,
    whole: &Partial,
) -> Result<(), NoMemory>
    ensures { OnOk result (AddsIf (IsTrue stays) whole.now found.old.items found.new.items) }
{
    if !stays {
        return Ok(());
    }
    let same = whole.copy(alloc)?;
    found.push(same)?;
    Ok(())
}

/// Whether each value of the first places is one of the second.
fn is_within(places: &Partial, whole: &Partial, count: u16) -> bool
    requires { length places.now ≤ count }
    ensures { IsTrue result ↔ IsWithin places.now whole.now }
{
    for index in 0..count {
        if !keeps(places, whole, VarId(index)) {
            return false;
        }
    }
    true
}

/// Whether the variable has its value in the second places too.
fn keeps(places: &Partial, whole: &Partial, variable: VarId) -> bool
    ensures { IsTrue result ↔ ((v : Val) → slice_get places.now variable.0 ≡ Some (Some v) → slice_get whole.now variable.0 ≡ Some (Some v)) }
{
    match places.get(variable) {
        None => true,
        Some(value) => has(whole, variable, value),
    }
}

/// Whether the variable has this value.
fn has(places: &Partial, variable: VarId, value: &Value) -> bool
    ensures { IsTrue result ↔ (slice_get places.now variable.0 ≡ Some (Some value.now)) }
{
    match places.get(variable) {
        None => false,
        Some(other) => other.same(value),
    }
}
