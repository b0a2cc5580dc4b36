//! Parts that have no parts of their own: a test, and a variable that has a value, keeps its own or has a member of a set.

ghost use Rattle.std.specs.Prelude.{◌≡◌, ◌<◌, suc, Err, IfErr, IfOk, IsTrue, Ok, length, map};
ghost use Rattle.names_terms.specs.Terms.{place_of};
ghost use Rattle.actions_meanings.specs.Forms.{assign, choose, test};
ghost use Rattle.eval_parts.specs.Following.{variable_at};
ghost use Rattle.actions_rows.specs.Rows.{part_term};
ghost use Rattle.values_sets.specs.Soundness.{IsSound};
ghost use Rattle.steps_filling.specs.Fillings.{Assigns, Chooses, FailsToChoose, IsEmpty};
ghost use Rattle.steps_walk.specs.Walking.{IsForm, PartGrounded, PartWalked, listed};

use crate::course::Course;
use crate::found::{Found, found_if};
use actions_rows::{Part, kept_value, part_place, part_truth, scene_at};
use base_core::Place;
use eval_meanings::EvalFault;
use eval_terms::{describe_set, eval};
use logs_updates::See;
use names_terms::Term;
use states_core::{Partial, VarId};
use std::alloc::{AllocError, Global};
use steps_filling::{assigned, chosen};
use values_core::Value;
use values_sets::Described;

/// A part that is a test.
pub fn walk_test(
    alloc: Global,
    course: &Course<'_>,
    slots: &[&Value],
    depth: u32,
    places: Partial,
    part: Part<'_>,
) -> Result<Found, EvalFault>
    requires few { depth < 4294967295 }
    requires form { IsForm course.now.stage (map (λ v. v.now) slots.now) part (test) }
    requires grounds { PartGrounded course.now.stage (map (λ v. v.now) slots.now) (suc depth) places part }
    ensures found { IfOk result (λ found. PartWalked course.now.stage (map (λ v. v.now) slots.now) (suc depth) places part.entry (Ok (listed found))) }
    ensures fault { IfErr result (λ fault. PartWalked course.now.stage (map (λ v. v.now) slots.now) (suc depth) places part.entry (Err fault)) }
{
    match part_truth(
        alloc,
        scene_at(course.stage, slots, &places),
        depth + 1,
        part,
    ) {
        Ok(holds) => Ok(found_if(alloc, holds, places)),
        Err(fault) => Err(fault),
    }
}

/// A variable that has the value of a term.
pub fn walk_assign(
    alloc: Global,
    course: &Course<'_>,
    slots: &[&Value],
    depth: u32,
    places: Partial,
    part: Part<'_>,
    number: VarId,
    term: &Term,
) -> Result<Found, EvalFault>
    requires form { IsForm course.now.stage (map (λ v. v.now) slots.now) part (assign number.0 term.now) }
    requires grounds { PartGrounded course.now.stage (map (λ v. v.now) slots.now) (suc depth) places part }
    ensures found { IfOk result (λ found. PartWalked course.now.stage (map (λ v. v.now) slots.now) (suc depth) places part.entry (Ok (listed found))) }
    ensures fault { IfErr result (λ fault. PartWalked course.now.stage (map (λ v. v.now) slots.now) (suc depth) places part.entry (Err fault)) }
{
    match eval(alloc, scene_at(course.stage, slots, &places), depth, term) {
        Ok(value) => Ok(found_assigned(alloc, course.sees_of(number), places, number, value)?),
        Err(fault) => Err(fault),
    }
}

/// A variable that keeps its value.
pub fn walk_keep(
    alloc: Global,
    course: &Course<'_>,
    slots: &[&Value],
    depth: u32,
    places: Partial,
    part: Part<'_>,
    number: VarId,
) -> Result<Found, EvalFault>
    requires form { IsForm course.now.stage (map (λ v. v.now) slots.now) part (assign number.0 (variable_at (place_of (part_term part)) number.0)) }
    requires grounds { PartGrounded course.now.stage (map (λ v. v.now) slots.now) (suc depth) places part }
    ensures found { IfOk result (λ found. PartWalked course.now.stage (map (λ v. v.now) slots.now) (suc depth) places part.entry (Ok (listed found))) }
    ensures fault { IfErr result (λ fault. PartWalked course.now.stage (map (λ v. v.now) slots.now) (suc depth) places part.entry (Err fault)) }
{
    match kept_value(
        scene_at(course.stage, slots, &places),
        depth,
        part_place(part),
        number,
    ) {
        Ok(value) => Ok(found_assigned(alloc, course.sees_of(number), places, number, value)?),
        Err(fault) => Err(fault),
    }
}

/// A variable whose value is a member of the set that a term means.
pub fn walk_choose(
    alloc: Global,
    course: &Course<'_>,
    slots: &[&Value],
    depth: u32,
    places: Partial,
    part: Part<'_>,
    number: VarId,
    term: &Term,
) -> Result<Found, EvalFault>
    requires form { IsForm course.now.stage (map (λ v. v.now) slots.now) part (choose number.0 term.now) }
    requires grounds { PartGrounded course.now.stage (map (λ v. v.now) slots.now) (suc depth) places part }
    ensures found { IfOk result (λ found. PartWalked course.now.stage (map (λ v. v.now) slots.now) (suc depth) places part.entry (Ok (listed found))) }
    ensures fault { IfErr result (λ fault. PartWalked course.now.stage (map (λ v. v.now) slots.now) (suc depth) places part.entry (Err fault)) }
{
    match describe_set(alloc, scene_at(course.stage, slots, &places), depth, term) {
        Ok(set) => found_chosen(alloc, course.sees_of(number), places, number, set, term.at),
        Err(fault) => Err(fault),
    }
}

/// What is found by giving the variable the value. Where nothing is seen and the variable has no value yet, no list is made.
#[tactic(auto, using(crate::proofs::Told::filled_free))]
fn found_assigned(
    alloc: Global,
    sees: &[See],
    places: Partial,
    number: VarId,
    value: Value,
) -> Result<Found, AllocError>
    requires { number.0 < length places }
    ensures { IfOk result (λ found. Assigns sees.now number.0 value places (listed found)) }
{
    if is_free(sees, &places, number) {
        value.is_value();
        let mut further = places;
        further.put(number, value)?;
        return Ok(Found::One(further));
    }
    Ok(Found::Many(assigned(alloc, sees, places, number, value)?))
}

/// Whether nothing is seen, and the variable has no value in the places.
fn is_free(sees: &[See], places: &Partial, number: VarId) -> bool
    ensures { IsTrue result → (length sees.now ≡ 0) × IsEmpty places.now number.0 }
{
    if sees.len() > 0 {
        return false;
    }
    match places.get(number) {
        Some(_) => false,
        None => true,
    }
}

/// What is found by choosing a value of the set.
fn found_chosen(
    alloc: Global,
    sees: &[See],
    places: Partial,
    number: VarId,
    set: Described,
    at: Place,
) -> Result<Found, EvalFault>
    requires within { number.0 < length places }
    requires sound { IsSound set }
    ensures found { IfOk result (λ found. Chooses sees.now number.0 set at places (listed found)) }
    ensures fault { IfErr result (FailsToChoose number.0 set at places) }
{
    match chosen(alloc, sees, places, number, set, at) {
        Ok(list) => Ok(Found::Many(list)),
        Err(fault) => Err(fault),
    }
}
