//! That the value of a term changes, behind each of several branches.

ghost use Rattle.std.specs.Prelude.{IfOk, map};
ghost use Rattle.eval_meanings.specs.Unchanged.{changed_of};
ghost use Rattle.actions_rows.specs.Rows.{before, setting};
ghost use Rattle.steps_why_branches.specs.declared.why.Ended.TheVariants.{Passed};
ghost use Rattle.steps_why_walk.specs.Walking.{EndAltered, EndReads, EndsAltered, EndsRead};

use crate::ends::{ends_at, fault_end};
use actions_rows::{Stage, changed_truth, scene_at};
use base_core::{NoMemory, Place};
use names_terms::Term;
use states_core::Partial;
use std::alloc::Global;
use steps_why_branches::{Ended, Spared, WhyKind};
use values_core::Value;

/// Of each branch, that the value of a term changes.
pub fn altered_ends(
    alloc: Global,
    stage: Stage<'_>,
    slots: &[&Value],
    depth: u32,
    at: Place,
    found: Vec<Ended>,
    term: &Term,
) -> Result<Vec<Ended>, NoMemory>
    requires { EndsRead (setting stage) depth (before stage (map (λ v. v.now) slots.now)) (changed_of at term.now) found.items }
    ensures { IfOk result (λ ends. EndsAltered (setting stage.entry) depth (before stage.entry (map (λ v. v.now) slots.now)) (changed_of at term.now) found.items ends.items) }
{
    let mut all = Vec::with_capacity(alloc, found.len())?;
    for end in found {
        match altered_end(alloc, stage, slots, depth, at, end, term) {
            Ok(further) => all.push(further)?,
            Err(error) => return Err(error),
        }
    }
    Ok(all)
}

/// The same of one branch.
fn altered_end(
    alloc: Global,
    stage: Stage<'_>,
    slots: &[&Value],
    depth: u32,
    at: Place,
    end: Ended,
    term: &Term,
) -> Result<Ended, NoMemory>
    requires { EndReads (setting stage) depth (before stage (map (λ v. v.now) slots.now)) (changed_of at term.now) end }
    ensures { IfOk result (EndAltered (setting stage.entry) depth (before stage.entry (map (λ v. v.now) slots.now)) (changed_of at term.now) end) }
{
    match end {
        Ended::Passed(places, spared) => {
            changed_end(alloc, stage, slots, depth, at, places, spared, term)
        }
        Ended::Ends(why) => Ok(Ended::Ends(why)),
    }
}

/// The same in these places, where this was passed over first, if anything was.
fn changed_end(
    alloc: Global,
    stage: Stage<'_>,
    slots: &[&Value],
    depth: u32,
    at: Place,
    places: Partial,
    spared: Option<Spared>,
    term: &Term,
) -> Result<Ended, NoMemory>
    requires { EndReads (setting stage) depth (before stage (map (λ v. v.now) slots.now)) (changed_of at term.now) (Passed places spared) }
    ensures { IfOk result (EndAltered (setting stage.entry) depth (before stage.entry (map (λ v. v.now) slots.now)) (changed_of at term.now) (Passed places spared)) }
{
    match changed_truth(alloc, scene_at(stage, slots, &places), depth, at, term) {
        Ok(true) => Ok(Ended::Passed(places, spared)),
        Ok(false) => Ok(ends_at(at, WhyKind::NoMember)),
        Err(fault) => fault_end(fault),
    }
}
