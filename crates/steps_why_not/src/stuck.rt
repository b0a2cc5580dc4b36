//! Updates that have no result.

ghost use Rattle.std.specs.Prelude.{◌≡◌, ◌<◌, ◌^◌, ◌∷◌, [], All, IfOk, Some, false, length, ℕ};
ghost use Rattle.states_core.specs.States.{Values};
ghost use Rattle.steps_lines_defs.specs.Asks.{Moves};
ghost use Rattle.steps_lines_defs.specs.Says.{IsState};
ghost use Rattle.steps_moves.specs.Current.{Becomes, value_now};
ghost use Rattle.steps_why_not.specs.Lines.{no_update};
ghost use Rattle.steps_why_not.specs.Results.{IsStuck};

use crate::answer::Whys;
use base_core::NoMemory;
use logs_updates::{Update, Updates, apply};
use states_core::{Partial, State, VarId};
use std::alloc::Global;
use steps_why_branches::{Why, WhyKind};
use values_core::Value;

/// That the updates have no result, as the one reason.
pub fn no_result(alloc: Global, updates: &Updates, from: &State) -> Result<Whys, NoMemory>
    requires few { length from.now < 2 ^ 16 }
    requires within { All (λ u. u.path.variable.0 < length from.now) updates.now }
    requires none { (t : Values) → IsState (length from.now) t → ¬ Moves updates.now from.now t }
    ensures { IfOk result (λ whys. (x : ℕ) × IsStuck updates.now from.now x × (whys.list.items ≡ no_update x ∷ []) × (whys.more ≡ false)) }
{
    let variable = stuck_variable(alloc, updates, from)?;
    let mut list = Vec::new(alloc);
    list.push(Why {
        at: None,
        reason: WhyKind::NoUpdate(variable),
    })?;
    Ok(Whys { list, more: false })
}

/// The variable of the first update that has no result, where some update has none.
fn stuck_variable(alloc: Global, updates: &Updates, from: &State) -> Result<VarId, NoMemory>
    requires few { length from.now < 2 ^ 16 }
    requires within { All (λ u. u.path.variable.0 < length from.now) updates.now }
    requires none { (t : Values) → IsState (length from.now) t → ¬ Moves updates.now from.now t }
    ensures { IfOk result (λ x. IsStuck updates.now from.now x.0) }
{
    let mut places = Partial::empty(alloc, from.values().len() as u16)?;
    let all = updates.items();
    for update in all {
        let variable = update.path.variable();
        let next = next_value(alloc, update, from, &places)?;
        let Some(value) = next else {
            return Ok(variable);
        };
        value.is_value();
        places.put(variable, value)?;
    }
    unreachable!()
}

/// What the update makes of its variable's value, or none where it has no result.
fn next_value(
    alloc: Global,
    update: &Update,
    from: &State,
    places: &Partial,
) -> Result<Option<Value>, NoMemory>
    requires { update.now.path.variable.0 < length from.now }
    ensures { IfOk result (Becomes update.now (value_now places.now from.now update.now.path.variable.0)) }
{
    let value = current(from, places, update.path.variable());
    value.is_value();
    apply(alloc, update, value)
}

/// The variable's value: that of its place, where it has one, and else that of the state.
fn current<'a>(from: &'a State, places: &'a Partial, variable: VarId) -> &'a Value
    requires { variable.0 < length from.now }
    ensures { value_now places.now from.now variable.0 ≡ Some result.now }
{
    match places.get(variable) {
        Some(value) => value,
        None => &from.values()[variable.0 as usize],
    }
}
