//! The walk of parts that are not taken apart: tests, and what says the value of a variable.

ghost use Rattle.std.specs.Prelude.{◌≤◌, ◌<◌, suc, IfOk, map};
ghost use Rattle.names_terms.specs.Terms.{place_of};
ghost use Rattle.actions_meanings.specs.Forms.{assign, choose, test};
ghost use Rattle.eval_parts.specs.Following.{variable_at};
ghost use Rattle.actions_rows.specs.Rows.{part_term};
ghost use Rattle.steps_why_walk.specs.Walking.{IsForm, LeafListed, PartGrounded, PartListed};

use crate::ends::{fault_end, one_end};
use crate::failing::held_end;
use crate::leaves::{chosen_ends, equated_end};
use actions_rows::{Part, Stage, kept_value, part_place, part_truth, scene_at};
use base_core::NoMemory;
use eval_terms::{describe_set, eval};
use names_terms::Term;
use states_core::{Partial, VarId};
use std::alloc::Global;
use steps_why_branches::{Ended, Sparing, WhyKind};
use values_core::Value;

/// A part that is a test.
pub fn walk_test(
    alloc: Global,
    stage: Stage<'_>,
    slots: &[&Value],
    sparing: Sparing,
    depth: u32,
    places: Partial,
    part: Part<'_>,
) -> Result<Vec<Ended>, NoMemory>
    requires few { depth < 4294967295 }
    requires form { IsForm stage (map (λ v. v.now) slots.now) part (test) }
    requires grounds { PartGrounded stage (map (λ v. v.now) slots.now) (suc depth) places part }
    ensures { IfOk result (λ ends. LeafListed stage.entry sparing (map (λ v. v.now) slots.now) (suc depth) places part.entry ends.items) }
{
    match part_truth(alloc, scene_at(stage, &*slots, &places), depth + 1, part) {
        Ok(holds) => {
            let end = held_end(
                alloc,
                holds,
                sparing,
                slots,
                part,
                places,
                WhyKind::TestFalse,
                None,
            )?;
            one_end(alloc, end)
        }
        Err(fault) => {
            let end = fault_end(fault)?;
            one_end(alloc, end)
        }
    }
}

/// A variable that has the value of a term.
pub fn walk_assign(
    alloc: Global,
    stage: Stage<'_>,
    slots: &[&Value],
    sparing: Sparing,
    depth: u32,
    places: Partial,
    part: Part<'_>,
    number: VarId,
    term: &Term,
) -> Result<Vec<Ended>, NoMemory>
    requires form { IsForm stage (map (λ v. v.now) slots.now) part (assign number.0 term.now) }
    requires grounds { PartGrounded stage (map (λ v. v.now) slots.now) (suc depth) places part }
    ensures { IfOk result (λ ends. LeafListed stage.entry sparing (map (λ v. v.now) slots.now) (suc depth) places part.entry ends.items) }
{
    match eval(alloc, scene_at(stage, &*slots, &places), depth, term) {
        Ok(value) => {
            let end = equated_end(alloc, sparing, slots, part, places, number, value)?;
            one_end(alloc, end)
        }
        Err(fault) => {
            let end = fault_end(fault)?;
            one_end(alloc, end)
        }
    }
}

/// A variable that keeps its value.
pub fn walk_keep(
    alloc: Global,
    stage: Stage<'_>,
    slots: &[&Value],
    sparing: Sparing,
    depth: u32,
    places: Partial,
    part: Part<'_>,
    number: VarId,
) -> Result<Vec<Ended>, NoMemory>
    requires form { IsForm stage (map (λ v. v.now) slots.now) part (assign number.0 (variable_at (place_of (part_term part)) number.0)) }
    requires grounds { PartGrounded stage (map (λ v. v.now) slots.now) (suc depth) places part }
    ensures { IfOk result (λ ends. LeafListed stage.entry sparing (map (λ v. v.now) slots.now) (suc depth) places part.entry ends.items) }
{
    match kept_value(
        scene_at(stage, &*slots, &places),
        depth,
        part_place(part),
        number,
    ) {
        Ok(value) => {
            let end = equated_end(alloc, sparing, slots, part, places, number, value)?;
            one_end(alloc, end)
        }
        Err(fault) => {
            let end = fault_end(fault)?;
            one_end(alloc, end)
        }
    }
}

/// A variable whose value is a member of the set that a term means.
pub fn walk_choose(
    alloc: Global,
    stage: Stage<'_>,
    slots: &[&Value],
    sparing: Sparing,
    depth: u32,
    room: usize,
    places: Partial,
    part: Part<'_>,
    number: VarId,
    term: &Term,
) -> Result<Vec<Ended>, NoMemory>
    requires room { 1 ≤ room }
    requires form { IsForm stage (map (λ v. v.now) slots.now) part (choose number.0 term.now) }
    requires grounds { PartGrounded stage (map (λ v. v.now) slots.now) (suc depth) places part }
    ensures { IfOk result (λ ends. PartListed stage.entry sparing (map (λ v. v.now) slots.now) room (suc depth) places part.entry ends.items) }
{
    match describe_set(alloc, scene_at(stage, &*slots, &places), depth, term) {
        Ok(set) => chosen_ends(
            alloc, room, sparing, slots, part, places, number, set, term.at,
        ),
        Err(fault) => {
            let end = fault_end(fault)?;
            one_end(alloc, end)
        }
    }
}
