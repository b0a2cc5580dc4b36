ghost use Rattle.std.specs.Prelude.{◌≡◌, ◌↔◌, ◌<◌, ◌^◌, All, IfOk, Some, length};
ghost use Rattle.std.specs.Option.{IfNone, IfSome};
ghost use Rattle.states_core.specs.States.{Values};
ghost use Rattle.eval_meanings.specs.Laws.{HoldValues};
ghost use Rattle.steps_lines_defs.specs.Says.{IsState};
ghost use Rattle.steps_lines_defs.specs.Asks.{Moves, updated};
ghost use Rattle.actions_meanings.specs.Filled.{Completes, Fills};
ghost use Rattle.steps_moves.specs.Current.{Becomes, value_now};

use base_core::NoMemory;
use logs_updates::{Update, Updates, apply};
use states_core::{Partial, State, VarId};
use std::alloc::Global;
use values_core::Value;

/// The next state so far as the line's updates fill it: each updated variable has what its updates make of its value, one after the other, and
/// each other place is empty. None where some variable's updates have no result.
pub fn moved(alloc: Global, updates: &Updates, from: &State) -> Result<Option<Partial>, NoMemory>
    requires few { length from.now < 2 ^ 16 }
    requires within { All (λ u. u.path.variable.0 < length from.now) updates.now }
    ensures none { IfOk result (λ o. IfNone o ((t : Values) → IsState (length from.now) t → ¬ Moves updates.now from.now t)) }
    ensures long { IfOk result (λ o. IfSome o (λ p. length p ≡ length from.now)) }
    ensures filled { IfOk result (λ o. IfSome o (λ p. Fills (updated updates.now) p)) }
    ensures values { IfOk result (λ o. IfSome o (λ p. HoldValues p)) }
    ensures exact { IfOk result (λ o. IfSome o (λ p. (t : Values) → Completes p t ↔ (IsState (length from.now) t × Moves updates.now from.now t))) }
{
    let mut places = Partial::empty(alloc, from.values().len() as u16)?;
    let all = updates.items();
    for update in all {
        let next = next_value(alloc, update, from, &places)?;
        let Some(value) = next else {
            return Ok(None);
        };
        value.is_value();
        places.put(update.path.variable(), value)?;
    }
    Ok(Some(places))
}

/// What the update makes of its variable's value, or none where it has no result.
fn next_value(
    alloc: Global,
    update: &Update,
    from: &State,
    places: &Partial,
) -> Result<Option<Value>, NoMemory>
    requires { update.now.path.variable.0 < length from.now }
    ensures { IfOk result (Becomes update.now (value_now places.now from.now update.now.path.variable.0)) }
{
    let value = current(from, places, update.path.variable());
    value.is_value();
    apply(alloc, update, value)
}

/// The variable's value: that of its place, where it has one, and else that of the state.
fn current<'a>(from: &'a State, places: &'a Partial, variable: VarId) -> &'a Value
    requires { variable.0 < length from.now }
    ensures { value_now places.now from.now variable.0 ≡ Some result.now }
{
    match places.get(variable) {
        Some(value) => value,
        None => &from.values()[variable.0 as usize],
    }
}
