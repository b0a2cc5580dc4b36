//! One of the values of a set for a variable.

ghost use Rattle.std.specs.Prelude.{◌≡◌, ◌<◌, IfErr, IfOk, IfSome, IsTrue, Some, length, slice_set};
ghost use Rattle.values_core.specs.Data.{Val};
ghost use Rattle.values_sets.specs.Membership.{Belongs};
ghost use Rattle.values_sets.specs.Soundness.{IsSound};
ghost use Rattle.eval_meanings.specs.Sets.{list_at};
ghost use Rattle.eval_parts.specs.Scenes.{Stops};
ghost use Rattle.steps_filling.specs.Fillings.{Allows, AreFilled, Chooses, FailsToChoose, FillsMembers, IsAtHand, OneIf, SeenIn};

use crate::filling::{add_filled, one_if};
use base_core::Place;
use eval_meanings::{EvalFault, list_at};
use logs_updates::See;
use states_core::{Partial, VarId};
use std::alloc::{AllocError, Global};
use values_core::Value;
use values_set_bounds::bounds_of;
use values_sets::{Described, member};

/// The places with a member of the set, which stands at the place, as the variable's value: themselves where it has one already, none where its
/// value is no member, and where it has no value, for each member those filled further, if what is seen of the variable stands in the member.
pub fn chosen(
    alloc: Global,
    sees: &[See],
    places: Partial,
    number: VarId,
    set: Described,
    at: Place,
) -> Result<Vec<Partial>, EvalFault>
    requires within { number.0 < length places }
    requires sound { IsSound set }
    ensures found { IfOk result (λ found. Chooses sees.now number.0 set at places found.items) }
    ensures fault { IfErr result (FailsToChoose number.0 set at places) }
{
    match places.get(number) {
        Some(known) => Ok(one_if(alloc, member(&set, known), places)?),
        None => listed_members(alloc, sees, &places, number, set, at),
    }
}

/// The same where the variable has no value. Where one is seen of it, the set need not be listed to be asked for that one, as long as it could be.
fn listed_members(
    alloc: Global,
    sees: &[See],
    places: &Partial,
    number: VarId,
    set: Described,
    at: Place,
) -> Result<Vec<Partial>, EvalFault>
    requires within { number.0 < length places.now }
    requires sound { IsSound set }
    ensures found { IfOk result (λ found. FillsMembers sees.now number.0 set at places.now found.items) }
    ensures fault { IfErr result (Stops (list_at at set)) }
{
    if let Some(value) = seen_whole(sees, number) {
        if is_at_hand(&set) {
            value.is_value();
            let found = fill_seen(alloc, sees, places, number, &set, value);
            drop(set);
            return Ok(found?);
        }
    }
    match list_at(alloc, set, at) {
        Ok(listed) => {
            listed.is_value();
            Ok(fill_each(alloc, sees, places, number, listed.members())?)
        }
        Err(fault) => Err(fault),
    }
}

/// For each of the values the places with it, if what is seen of the variable stands in it.
fn fill_each(
    alloc: Global,
    sees: &[See],
    places: &Partial,
    number: VarId,
    values: &[Value],
) -> Result<Vec<Partial>, AllocError>
    requires { number.0 < length places.now }
    ensures { IfOk result (λ found. AreFilled sees.now number.0 values.now places.now found.items) }
{
    let mut found = Vec::with_capacity(alloc, values.len())?;
    for value in values {
        add_filled(alloc, &mut found, sees, places, number, value)?;
    }
    Ok(found)
}

/// The value that is seen of the variable as a whole, if one is.
fn seen_whole(sees: &[See], number: VarId) -> Option<&Value>
    ensures { IfSome result (λ value. (v : Val) → SeenIn sees.now number.0 v → v ≡ value.now) }
{
    for see in sees {
        if is_whole(see, number) {
            return Some(&see.value);
        }
    }
    None
}

/// Whether it is the value of the whole variable that is seen.
fn is_whole(see: &See, number: VarId) -> bool
    ensures { IsTrue result → (v : Val) → Allows see.now number.0 v → v ≡ see.now.value }
{
    if see.path.variable().0 != number.0 {
        return false;
    }
    see.path.keys().is_empty()
}

/// Whether the set is known to be one that can be listed.
fn is_at_hand(set: &Described) -> bool
    requires { IsSound set.now }
    ensures { IsTrue result → IsAtHand set.now }
{
    match bounds_of(set) {
        Some(_) => true,
        None => false,
    }
}

/// The places with the value that is seen of the variable, if it belongs to the set and all that is seen stands in it.
fn fill_seen(
    alloc: Global,
    sees: &[See],
    places: &Partial,
    number: VarId,
    set: &Described,
    value: &Value,
) -> Result<Vec<Partial>, AllocError>
    requires within { number.0 < length places.now }
    requires sound { IsSound set.now }
    ensures { IfOk result (λ found. OneIf (Belongs set.now value.now × SeenIn sees.now number.0 value.now) (slice_set places.now number.0 (Some value.now)) found.items) }
{
    let mut found = Vec::new(alloc);
    if !member(set, value) {
        return Ok(found);
    }
    add_filled(alloc, &mut found, sees, places, number, value)?;
    Ok(found)
}
