//! The ends of parts that say the value of a variable.

ghost use Rattle.std.specs.Prelude.{◌≡◌, ◌≤◌, ◌<◌, IfOk, None, Some, length, map, slice_set};
ghost use Rattle.actions_rows.specs.Rows.{part_term};
ghost use Rattle.values_sets.specs.Soundness.{IsSound};
ghost use Rattle.steps_why_branches.specs.declared.why.Ended.TheVariants.{Passed};
ghost use Rattle.steps_why_walk.specs.Ends.{IsChosen, IsEquated, IsListedEnds, IsMembers};

use crate::ends::{fault_end, one_end, or_no_member};
use crate::failing::held_end;
use actions_rows::{Part, part_place};
use base_core::{NoMemory, Place};
use eval_meanings::list_at;
use states_core::{Partial, VarId};
use std::alloc::Global;
use steps_why_branches::{Ended, Sparing, WhyKind};
use values_core::Value;
use values_sets::{Described, member};

/// The variable has the value, as the part says: it is gone through where it has it, or has none yet and gets it.
pub fn equated_end(
    alloc: Global,
    sparing: Sparing,
    slots: &[&Value],
    part: Part<'_>,
    places: Partial,
    number: VarId,
    value: Value,
) -> Result<Ended, NoMemory>
    requires { number.0 < length places }
    ensures { IfOk result (IsEquated sparing (map (λ v. v.now) slots.now) (part_term part.entry) number.0 value places) }
{
    value.is_value();
    match places.get(number) {
        Some(known) => {
            let same = *known == value;
            let reason = WhyKind::Differs(number);
            held_end(
                alloc,
                same,
                sparing,
                slots,
                part,
                places,
                reason,
                Some(value),
            )
        }
        None => filled_end(places, number, value),
    }
}

/// It is gone through with this value of the variable.
fn filled_end(places: Partial, number: VarId, value: Value) -> Result<Ended, NoMemory>
    requires { number.0 < length places }
    ensures { IfOk result (λ end. end ≡ Passed (slice_set places number.0 (Some value)) None) }
{
    let mut further = places;
    further.put(number, value)?;
    Ok(Ended::Passed(further, None))
}

/// The variable has a member of the set, which stands at the place, as the part says: the first ends, at most `room` of them.
pub fn chosen_ends(
    alloc: Global,
    room: usize,
    sparing: Sparing,
    slots: &[&Value],
    part: Part<'_>,
    places: Partial,
    number: VarId,
    set: Described,
    set_at: Place,
) -> Result<Vec<Ended>, NoMemory>
    requires room { 1 ≤ room }
    requires within { number.0 < length places }
    requires sound { IsSound set }
    ensures { IfOk result (λ ends. IsChosen room sparing (map (λ v. v.now) slots.now) (part_term part.entry) number.0 set set_at places ends.items) }
{
    match places.get(number) {
        Some(known) => {
            let belongs = member(&set, known);
            let reason = WhyKind::NotIn(number);
            let end = held_end(alloc, belongs, sparing, slots, part, places, reason, None)?;
            one_end(alloc, end)
        }
        None => listed_ends(alloc, room, &places, number, set, set_at, part_place(part)),
    }
}

/// The same where the variable has no value yet.
fn listed_ends(
    alloc: Global,
    room: usize,
    places: &Partial,
    number: VarId,
    set: Described,
    set_at: Place,
    at: Place,
) -> Result<Vec<Ended>, NoMemory>
    requires room { 1 ≤ room }
    requires within { number.0 < length places.now }
    requires sound { IsSound set }
    ensures { IfOk result (λ ends. IsListedEnds room number.0 set set_at at places.now ends.items) }
{
    match list_at(alloc, set, set_at) {
        Ok(listed) => {
            listed.is_value();
            let ends = member_ends(alloc, room, places, number, listed.members())?;
            or_no_member(alloc, ends, at)
        }
        Err(fault) => {
            let end = fault_end(fault)?;
            one_end(alloc, end)
        }
    }
}

/// For each of the values the places with it.
fn member_ends(
    alloc: Global,
    room: usize,
    places: &Partial,
    number: VarId,
    values: &[Value],
) -> Result<Vec<Ended>, NoMemory>
    requires room { 1 ≤ room }
    requires within { number.0 < length places.now }
    ensures { IfOk result (λ ends. IsMembers room places.now number.0 values.now ends.items) }
{
    let mut ends = Vec::new(alloc);
    for value in values {
        if ends.len() >= room {
            return Ok(ends);
        }
        let end = member_end(alloc, places, number, value)?;
        ends.push(end)?;
    }
    Ok(ends)
}

/// The places with this value of the variable.
fn member_end(
    alloc: Global,
    places: &Partial,
    number: VarId,
    value: &Value,
) -> Result<Ended, NoMemory>
    requires { number.0 < length places.now }
    ensures { IfOk result (λ end. end ≡ Passed (slice_set places.now number.0 (Some value.now)) None) }
{
    let same = places.copy(alloc)?;
    let copied = value.copy()?;
    filled_end(same, number, copied)
}
