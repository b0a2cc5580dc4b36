//! The walk by the forms of actions.

ghost use Rattle.std.specs.Prelude.{◌<◌, ◌∷◌, [], suc, Err, IfErr, IfOk, Ok, map, option_copied};
ghost use Rattle.names_terms.specs.Lists.{arms_list, terms_list};
ghost use Rattle.names_terms.specs.Terms.{place_of};
ghost use Rattle.eval_meanings.specs.Binders.{combinations, ranges};
ghost use Rattle.eval_meanings.specs.Contexts.{bind};
ghost use Rattle.eval_meanings.specs.Answers.{Tells};
ghost use Rattle.eval_meanings.specs.Evaluates.{Evaluates};
ghost use Rattle.eval_meanings.specs.Unchanged.{TruthOf, changed_of, unchanged_of};
ghost use Rattle.eval_meanings.specs.Reads.{Reads};
ghost use Rattle.actions_meanings.specs.Filled.{at_next};
ghost use Rattle.actions_meanings.specs.Forms.{arms, both, branch, call, changing, either, inside, narrowed, some};
ghost use Rattle.eval_parts.specs.Walks.{AreWithin, at_places};
ghost use Rattle.actions_rows.specs.Rows.{before, form_of, part_term, setting};
ghost use Rattle.eval_parts.specs.BoundSets.{bound_members};
ghost use Rattle.steps_walk.specs.declared.sense.Sense.TheVariants.{Itself};
ghost use Rattle.steps_walk.specs.Walking.{Adds, AllGrounded, AllWalked, AnyGrounded, AnyWalked, BodyGrounded, BodyWalked, EachGrounded, EachReads, EachTested, EachWalked, Grounded, IsForm, IsWalked, PartGrounded, PartWalked, listed, parts_of, under};

use crate::course::Course;
use crate::found::{Found, joined};
use crate::leaves::{walk_assign, walk_choose, walk_keep, walk_test};
use crate::lists::{add_if, outermost};
use crate::sense::{Sense, part_in};
use actions_rows::{Part, Row, Stage, changed_truth, chosen_arm, part_place, row_of, scene_at};
use base_core::Place;
use eval_meanings::EvalFault;
use eval_parts::{
    BoundSet, advance, definition, has_combination, member_lists, one_more, only_term, slots_and,
    slots_with, start,
};
use eval_terms::{eval, eval_bounds, eval_each, eval_truth};
use names_terms::{Arms, Bounds, DefId, Term, Terms};
use states_core::Partial;
use std::alloc::Global;
use values_core::{EvalKind, Value};

/// The places, filled further, of which the term holds, where at most `depth` evaluations stand inside one another; or a fault that it has.
pub fn walk(
    alloc: Global,
    stage: Stage<'_>,
    slots: &[&Value],
    depth: u32,
    places: Partial,
    term: &Term,
) -> Result<Vec<Partial>, EvalFault>
    requires { Grounded (setting stage) depth stage.sees.now places (before stage (map (λ v. v.now) slots.now)) term.now }
    ensures found { IfOk result (λ found. IsWalked (setting stage.entry) depth stage.entry.sees.now places (before stage.entry (map (λ v. v.now) slots.now)) term.now (Ok found.items)) }
    ensures fault { IfErr result (λ fault. IsWalked (setting stage.entry) depth stage.entry.sees.now places (before stage.entry (map (λ v. v.now) slots.now)) term.now (Err fault)) }
{
    let course = Course::new(stage);
    match walk_part(alloc, &course, slots, depth, places, Part::Plain(term)) {
        Ok(found) => Ok(found.into_list(alloc)?),
        Err(fault) => Err(fault),
    }
}

/// The same of a part.
#[cycle(walk)]
fn walk_part(
    alloc: Global,
    course: &Course<'_>,
    slots: &[&Value],
    depth: u32,
    places: Partial,
    part: Part<'_>,
) -> Result<Found, EvalFault>
    requires { PartGrounded course.now.stage (map (λ v. v.now) slots.now) depth places part }
    ensures found { IfOk result (λ found. PartWalked course.now.stage (map (λ v. v.now) slots.now) depth places part.entry (Ok (listed found))) }
    ensures fault { IfErr result (λ fault. PartWalked course.now.stage (map (λ v. v.now) slots.now) depth places part.entry (Err fault)) }
{
    if depth == 0 {
        return Err(EvalFault::Refused(EvalKind::Nested, part_place(part)));
    }
    let row = row_of(course.stage, slots.len(), part);
    walk_row(alloc, course, slots, depth - 1, places, part, row)
}

/// The same by the form of the part, whose own parts have `depth` evaluations.
#[cycle(walk)]
fn walk_row(
    alloc: Global,
    course: &Course<'_>,
    slots: &[&Value],
    depth: u32,
    places: Partial,
    part: Part<'_>,
    row: Row<'_>,
) -> Result<Found, EvalFault>
    requires few { depth < 4294967295 }
    requires row { IsForm course.now.stage (map (λ v. v.now) slots.now) part (form_of (place_of (part_term part)) row) }
    requires grounds { PartGrounded course.now.stage (map (λ v. v.now) slots.now) (suc depth) places part }
    ensures found { IfOk result (λ found. PartWalked course.now.stage (map (λ v. v.now) slots.now) (suc depth) places part.entry (Ok (listed found))) }
    ensures fault { IfErr result (λ fault. PartWalked course.now.stage (map (λ v. v.now) slots.now) (suc depth) places part.entry (Err fault)) }
{
    match row {
        Row::Test => walk_test(alloc, course, slots, depth, places, part),
        Row::Assign(number, term) => {
            walk_assign(alloc, course, slots, depth, places, part, number, term)
        }
        Row::Keep(number) => walk_keep(alloc, course, slots, depth, places, part, number),
        Row::Choose(number, term) => {
            walk_choose(alloc, course, slots, depth, places, part, number, term)
        }
        Row::Both(terms) => walk_both(alloc, course, slots, depth, places, part, terms),
        Row::Unchanged(kept, terms) => {
            walk_unchanged(alloc, course, slots, depth, places, part, kept, terms)
        }
        Row::Either(terms) => walk_either(alloc, course, slots, depth, places, part, terms),
        Row::Boxed(action, subscript) => {
            walk_boxed(alloc, course, slots, depth, places, part, action, subscript)
        }
        Row::Angled(action, subscript) => {
            walk_angled(alloc, course, slots, depth, places, part, action, subscript)
        }
        Row::Exists(bounds, body) => {
            walk_exists(alloc, course, slots, depth, places, part, bounds, body)
        }
        Row::Branch(test, holds, other) => {
            walk_branch(
                alloc, course, slots, depth, places, part, test, holds, other,
            )
        }
        Row::Case(arms, other) => {
            walk_case(alloc, course, slots, depth, places, part, arms, other)
        }
        Row::Inside(inner) => walk_inside(alloc, course, slots, depth, places, part, inner),
        Row::Call(number, arguments) => {
            walk_call(alloc, course, slots, depth, places, part, number, arguments)
        }
    }
}

/// All of the terms.
#[cycle(walk)]
fn walk_both(
    alloc: Global,
    course: &Course<'_>,
    slots: &[&Value],
    depth: u32,
    places: Partial,
    part: Part<'_>,
    terms: &Terms,
) -> Result<Found, EvalFault>
    requires form { IsForm course.now.stage (map (λ v. v.now) slots.now) part (both (terms_list terms.now)) }
    requires grounds { PartGrounded course.now.stage (map (λ v. v.now) slots.now) (suc depth) places part }
    ensures found { IfOk result (λ found. PartWalked course.now.stage (map (λ v. v.now) slots.now) (suc depth) places part.entry (Ok (listed found))) }
    ensures fault { IfErr result (λ fault. PartWalked course.now.stage (map (λ v. v.now) slots.now) (suc depth) places part.entry (Err fault)) }
{
    let terms = terms.items();
    walk_all(alloc, course, slots, depth, places, Sense::Itself, terms)
}

/// That each of the terms is unchanged.
#[cycle(walk)]
fn walk_unchanged(
    alloc: Global,
    course: &Course<'_>,
    slots: &[&Value],
    depth: u32,
    places: Partial,
    part: Part<'_>,
    kept: usize,
    terms: &Terms,
) -> Result<Found, EvalFault>
    requires form { IsForm course.now.stage (map (λ v. v.now) slots.now) part (narrowed kept (map (unchanged_of (place_of (part_term part))) (terms_list terms.now))) }
    requires grounds { PartGrounded course.now.stage (map (λ v. v.now) slots.now) (suc depth) places part }
    ensures found { IfOk result (λ found. PartWalked course.now.stage (map (λ v. v.now) slots.now) (suc depth) places part.entry (Ok (listed found))) }
    ensures fault { IfErr result (λ fault. PartWalked course.now.stage (map (λ v. v.now) slots.now) (suc depth) places part.entry (Err fault)) }
{
    let sense = Sense::Unchanged(part_place(part));
    let slots = outermost(&*slots, kept);
    walk_all(alloc, course, slots, depth, places, sense, terms.items())
}

/// One of the terms.
#[cycle(walk)]
fn walk_either(
    alloc: Global,
    course: &Course<'_>,
    slots: &[&Value],
    depth: u32,
    places: Partial,
    part: Part<'_>,
    terms: &Terms,
) -> Result<Found, EvalFault>
    requires form { IsForm course.now.stage (map (λ v. v.now) slots.now) part (either (terms_list terms.now)) }
    requires grounds { PartGrounded course.now.stage (map (λ v. v.now) slots.now) (suc depth) places part }
    ensures found { IfOk result (λ found. PartWalked course.now.stage (map (λ v. v.now) slots.now) (suc depth) places part.entry (Ok (listed found))) }
    ensures fault { IfErr result (λ fault. PartWalked course.now.stage (map (λ v. v.now) slots.now) (suc depth) places part.entry (Err fault)) }
{
    walk_any(alloc, course, slots, depth, &places, terms.items())
}

/// `[A]_v`.
#[cycle(walk)]
fn walk_boxed(
    alloc: Global,
    course: &Course<'_>,
    slots: &[&Value],
    depth: u32,
    places: Partial,
    part: Part<'_>,
    action: &Term,
    subscript: &Term,
) -> Result<Found, EvalFault>
    requires form { IsForm course.now.stage (map (λ v. v.now) slots.now) part (either (action.now ∷ unchanged_of (place_of (part_term part)) subscript.now ∷ [])) }
    requires grounds { PartGrounded course.now.stage (map (λ v. v.now) slots.now) (suc depth) places part }
    ensures found { IfOk result (λ found. PartWalked course.now.stage (map (λ v. v.now) slots.now) (suc depth) places part.entry (Ok (listed found))) }
    ensures fault { IfErr result (λ fault. PartWalked course.now.stage (map (λ v. v.now) slots.now) (suc depth) places part.entry (Err fault)) }
{
    let rest = Part::Unchanged(part_place(part), subscript);
    match walk_copy(alloc, course, slots, depth, &places, Part::Plain(action)) {
        Ok(found) => walk_more(alloc, course, slots, depth, places, rest, found),
        Err(fault) => Err(fault),
    }
}

/// `<<A>>_v`: the action, and then that the value of `v` changes.
#[cycle(walk)]
fn walk_angled(
    alloc: Global,
    course: &Course<'_>,
    slots: &[&Value],
    depth: u32,
    places: Partial,
    part: Part<'_>,
    action: &Term,
    subscript: &Term,
) -> Result<Found, EvalFault>
    requires form { IsForm course.now.stage (map (λ v. v.now) slots.now) part (changing action.now subscript.now) }
    requires grounds { PartGrounded course.now.stage (map (λ v. v.now) slots.now) (suc depth) places part }
    ensures found { IfOk result (λ found. PartWalked course.now.stage (map (λ v. v.now) slots.now) (suc depth) places part.entry (Ok (listed found))) }
    ensures fault { IfErr result (λ fault. PartWalked course.now.stage (map (λ v. v.now) slots.now) (suc depth) places part.entry (Err fault)) }
{
    match walk_part(alloc, course, slots, depth, places, Part::Plain(action)) {
        Ok(found) => {
            let list = found.into_list(alloc)?;
            let at = part_place(part);
            changed_ones(alloc, course, slots, depth, at, list, subscript)
        }
        Err(fault) => Err(fault),
    }
}

/// Those of the places in which the value of a term changes.
fn changed_ones(
    alloc: Global,
    course: &Course<'_>,
    slots: &[&Value],
    depth: u32,
    at: Place,
    found: Vec<Partial>,
    term: &Term,
) -> Result<Found, EvalFault>
    requires { EachReads (setting course.now.stage) depth found.items (before course.now.stage (map (λ v. v.now) slots.now)) (changed_of at term.now) }
    ensures found { IfOk result (λ all. EachTested (setting course.now.stage) depth course.now.stage.sees.now found.items (before course.now.stage (map (λ v. v.now) slots.now)) (changed_of at term.now) (Ok (listed all))) }
    ensures fault { IfErr result (λ fault. EachTested (setting course.now.stage) depth course.now.stage.sees.now found.items (before course.now.stage (map (λ v. v.now) slots.now)) (changed_of at term.now) (Err fault)) }
{
    let mut kept = Vec::with_capacity(alloc, found.len())?;
    for places in found {
        match changed_at(alloc, course, slots, depth, at, &places, term) {
            Ok(holds) => add_if(&mut kept, holds, places)?,
            Err(fault) => return Err(fault),
        }
    }
    Ok(Found::Many(kept))
}

/// Whether the value of a term changes, in these places.
fn changed_at(
    alloc: Global,
    course: &Course<'_>,
    slots: &[&Value],
    depth: u32,
    at: Place,
    places: &Partial,
    term: &Term,
) -> Result<bool, EvalFault>
    requires { Reads course.now.stage.operators.now depth (at_next course.now.stage.which (before course.now.stage (map (λ v. v.now) slots.now)) places.now) (changed_of at term.now) }
    ensures { Tells result (TruthOf (Evaluates course.now.stage.operators.now depth) (at_next course.now.stage.which (before course.now.stage (map (λ v. v.now) slots.now)) places.now) (changed_of at term.now)) }
{
    changed_truth(
        alloc,
        scene_at(course.stage, slots, places),
        depth,
        at,
        term,
    )
}

/// All of the terms in this sense: the places that are found for the first ones are walked on with the next.
#[cycle(walk)]
fn walk_all(
    alloc: Global,
    course: &Course<'_>,
    slots: &[&Value],
    depth: u32,
    places: Partial,
    sense: Sense,
    terms: &[Term],
) -> Result<Found, EvalFault>
    requires { AllGrounded (setting course.now.stage) depth course.now.stage.sees.now places (parts_of (before course.now.stage (map (λ v. v.now) slots.now)) sense terms.now) }
    ensures found { IfOk result (λ found. AllWalked (setting course.now.stage) depth course.now.stage.sees.now places (parts_of (before course.now.stage (map (λ v. v.now) slots.now)) sense terms.now) (Ok (listed found))) }
    ensures fault { IfErr result (λ fault. AllWalked (setting course.now.stage) depth course.now.stage.sees.now places (parts_of (before course.now.stage (map (λ v. v.now) slots.now)) sense terms.now) (Err fault)) }
{
    let mut found = Found::One(places);
    for term in terms {
        if found.is_none() {
            return Ok(found);
        }
        match walk_from(alloc, course, slots, depth, found, part_in(sense, term)) {
            Ok(further) => found = further,
            Err(fault) => return Err(fault),
        }
    }
    Ok(found)
}

/// A part from each of the places that were found.
#[cycle(walk)]
fn walk_from(
    alloc: Global,
    course: &Course<'_>,
    slots: &[&Value],
    depth: u32,
    found: Found,
    part: Part<'_>,
) -> Result<Found, EvalFault>
    requires { EachGrounded (setting course.now.stage) depth course.now.stage.sees.now (listed found) (before course.now.stage (map (λ v. v.now) slots.now)) (part_term part) }
    ensures found { IfOk result (λ all. EachWalked (setting course.now.stage) depth course.now.stage.sees.now (listed found) (before course.now.stage (map (λ v. v.now) slots.now)) (part_term part.entry) (Ok (listed all))) }
    ensures fault { IfErr result (λ fault. EachWalked (setting course.now.stage) depth course.now.stage.sees.now (listed found) (before course.now.stage (map (λ v. v.now) slots.now)) (part_term part.entry) (Err fault)) }
{
    match found {
        Found::One(places) => walk_part(alloc, course, slots, depth, places, part),
        Found::Many(list) => walk_each(alloc, course, slots, depth, list, part),
    }
}

/// The same from each of a list.
#[cycle(walk)]
fn walk_each(
    alloc: Global,
    course: &Course<'_>,
    slots: &[&Value],
    depth: u32,
    list: Vec<Partial>,
    part: Part<'_>,
) -> Result<Found, EvalFault>
    requires { EachGrounded (setting course.now.stage) depth course.now.stage.sees.now list.items (before course.now.stage (map (λ v. v.now) slots.now)) (part_term part) }
    ensures found { IfOk result (λ all. EachWalked (setting course.now.stage) depth course.now.stage.sees.now list.items (before course.now.stage (map (λ v. v.now) slots.now)) (part_term part.entry) (Ok (listed all))) }
    ensures fault { IfErr result (λ fault. EachWalked (setting course.now.stage) depth course.now.stage.sees.now list.items (before course.now.stage (map (λ v. v.now) slots.now)) (part_term part.entry) (Err fault)) }
{
    let mut all = Found::none(alloc);
    for places in list {
        match walk_part(alloc, course, slots, depth, places, part) {
            Ok(more) => all = joined(alloc, all, more)?,
            Err(fault) => return Err(fault),
        }
    }
    Ok(all)
}

/// One of the terms.
#[cycle(walk)]
fn walk_any(
    alloc: Global,
    course: &Course<'_>,
    slots: &[&Value],
    depth: u32,
    places: &Partial,
    terms: &[Term],
) -> Result<Found, EvalFault>
    requires { AnyGrounded (setting course.now.stage) depth course.now.stage.sees.now places.now (parts_of (before course.now.stage (map (λ v. v.now) slots.now)) Itself terms.now) }
    ensures found { IfOk result (λ found. AnyWalked (setting course.now.stage) depth course.now.stage.sees.now places.now (parts_of (before course.now.stage (map (λ v. v.now) slots.now)) Itself terms.now) (Ok (listed found))) }
    ensures fault { IfErr result (λ fault. AnyWalked (setting course.now.stage) depth course.now.stage.sees.now places.now (parts_of (before course.now.stage (map (λ v. v.now) slots.now)) Itself terms.now) (Err fault)) }
{
    let mut found = Found::none(alloc);
    for term in terms {
        match walk_copy(alloc, course, slots, depth, places, Part::Plain(term)) {
            Ok(more) => found = joined(alloc, found, more)?,
            Err(fault) => return Err(fault),
        }
    }
    Ok(found)
}

/// A part from the places, behind what was found before.
#[cycle(walk)]
fn walk_more(
    alloc: Global,
    course: &Course<'_>,
    slots: &[&Value],
    depth: u32,
    places: Partial,
    part: Part<'_>,
    found: Found,
) -> Result<Found, EvalFault>
    requires { PartGrounded course.now.stage (map (λ v. v.now) slots.now) depth places part }
    ensures found { IfOk result (λ all. Adds course.now.stage (map (λ v. v.now) slots.now) depth places part.entry (listed found) (listed all)) }
    ensures fault { IfErr result (λ fault. PartWalked course.now.stage (map (λ v. v.now) slots.now) depth places part.entry (Err fault)) }
{
    match walk_part(alloc, course, slots, depth, places, part) {
        Ok(more) => Ok(joined(alloc, found, more)?),
        Err(fault) => Err(fault),
    }
}

/// A part from a copy of the places.
#[cycle(walk)]
fn walk_copy(
    alloc: Global,
    course: &Course<'_>,
    slots: &[&Value],
    depth: u32,
    places: &Partial,
    part: Part<'_>,
) -> Result<Found, EvalFault>
    requires { PartGrounded course.now.stage (map (λ v. v.now) slots.now) depth places.now part }
    ensures found { IfOk result (λ found. PartWalked course.now.stage (map (λ v. v.now) slots.now) depth places.now part.entry (Ok (listed found))) }
    ensures fault { IfErr result (λ fault. PartWalked course.now.stage (map (λ v. v.now) slots.now) depth places.now part.entry (Err fault)) }
{
    let same = places.copy(alloc)?;
    walk_part(alloc, course, slots, depth, same, part)
}

/// IF: the one term or the other.
#[cycle(walk)]
fn walk_branch(
    alloc: Global,
    course: &Course<'_>,
    slots: &[&Value],
    depth: u32,
    places: Partial,
    part: Part<'_>,
    test: &Term,
    holds: &Term,
    other: &Term,
) -> Result<Found, EvalFault>
    requires form { IsForm course.now.stage (map (λ v. v.now) slots.now) part (branch test.now holds.now other.now) }
    requires grounds { PartGrounded course.now.stage (map (λ v. v.now) slots.now) (suc depth) places part }
    ensures found { IfOk result (λ found. PartWalked course.now.stage (map (λ v. v.now) slots.now) (suc depth) places part.entry (Ok (listed found))) }
    ensures fault { IfErr result (λ fault. PartWalked course.now.stage (map (λ v. v.now) slots.now) (suc depth) places part.entry (Err fault)) }
{
    match eval_truth(alloc, scene_at(course.stage, &*slots, &places), depth, test) {
        Ok(true) => walk_part(alloc, course, slots, depth, places, Part::Plain(holds)),
        Ok(false) => walk_part(alloc, course, slots, depth, places, Part::Plain(other)),
        Err(fault) => Err(fault),
    }
}

/// CASE: what stands behind the first test that is true, or the last.
#[cycle(walk)]
fn walk_case(
    alloc: Global,
    course: &Course<'_>,
    slots: &[&Value],
    depth: u32,
    places: Partial,
    part: Part<'_>,
    cases: &Arms,
    other: Option<&Term>,
) -> Result<Found, EvalFault>
    requires form { IsForm course.now.stage (map (λ v. v.now) slots.now) part (arms (arms_list cases.now) (option_copied other)) }
    requires grounds { PartGrounded course.now.stage (map (λ v. v.now) slots.now) (suc depth) places part }
    ensures found { IfOk result (λ found. PartWalked course.now.stage (map (λ v. v.now) slots.now) (suc depth) places part.entry (Ok (listed found))) }
    ensures fault { IfErr result (λ fault. PartWalked course.now.stage (map (λ v. v.now) slots.now) (suc depth) places part.entry (Err fault)) }
{
    let scene = scene_at(course.stage, &*slots, &places);
    match chosen_arm(alloc, scene, depth, part_place(part), cases, other) {
        Ok(term) => walk_part(alloc, course, slots, depth, places, Part::Plain(term)),
        Err(fault) => Err(fault),
    }
}

/// A term inside another.
#[cycle(walk)]
fn walk_inside(
    alloc: Global,
    course: &Course<'_>,
    slots: &[&Value],
    depth: u32,
    places: Partial,
    part: Part<'_>,
    inner: &Term,
) -> Result<Found, EvalFault>
    requires form { IsForm course.now.stage (map (λ v. v.now) slots.now) part (inside inner.now) }
    requires grounds { PartGrounded course.now.stage (map (λ v. v.now) slots.now) (suc depth) places part }
    ensures found { IfOk result (λ found. PartWalked course.now.stage (map (λ v. v.now) slots.now) (suc depth) places part.entry (Ok (listed found))) }
    ensures fault { IfErr result (λ fault. PartWalked course.now.stage (map (λ v. v.now) slots.now) (suc depth) places part.entry (Err fault)) }
{
    walk_part(alloc, course, slots, depth, places, Part::Plain(inner))
}

/// A definition on arguments, which are evaluated first.
#[cycle(walk)]
fn walk_call(
    alloc: Global,
    course: &Course<'_>,
    slots: &[&Value],
    depth: u32,
    places: Partial,
    part: Part<'_>,
    number: DefId,
    arguments: &Terms,
) -> Result<Found, EvalFault>
    requires form { IsForm course.now.stage (map (λ v. v.now) slots.now) part (call number.0 (terms_list arguments.now)) }
    requires grounds { PartGrounded course.now.stage (map (λ v. v.now) slots.now) (suc depth) places part }
    ensures found { IfOk result (λ found. PartWalked course.now.stage (map (λ v. v.now) slots.now) (suc depth) places part.entry (Ok (listed found))) }
    ensures fault { IfErr result (λ fault. PartWalked course.now.stage (map (λ v. v.now) slots.now) (suc depth) places part.entry (Err fault)) }
{
    if arguments.len() == 1 {
        let argument = only_term(arguments);
        return walk_on(alloc, course, slots, depth, places, part, number, argument);
    }
    match eval_each(
        alloc,
        scene_at(course.stage, &*slots, &places),
        depth,
        arguments,
    ) {
        Ok(values) => walk_body(alloc, course, slots, depth, places, number, &values),
        Err(fault) => Err(fault),
    }
}

/// A definition on one argument, for whose value no list is made.
#[cycle(walk)]
fn walk_on(
    alloc: Global,
    course: &Course<'_>,
    slots: &[&Value],
    depth: u32,
    places: Partial,
    part: Part<'_>,
    number: DefId,
    argument: &Term,
) -> Result<Found, EvalFault>
    requires form { IsForm course.now.stage (map (λ v. v.now) slots.now) part (call number.0 (argument.now ∷ [])) }
    requires grounds { PartGrounded course.now.stage (map (λ v. v.now) slots.now) (suc depth) places part }
    ensures found { IfOk result (λ found. PartWalked course.now.stage (map (λ v. v.now) slots.now) (suc depth) places part.entry (Ok (listed found))) }
    ensures fault { IfErr result (λ fault. PartWalked course.now.stage (map (λ v. v.now) slots.now) (suc depth) places part.entry (Err fault)) }
{
    match eval(
        alloc,
        scene_at(course.stage, &*slots, &places),
        depth,
        argument,
    ) {
        Ok(value) => walk_body_on(alloc, course, slots, depth, places, number, &value),
        Err(fault) => Err(fault),
    }
}

/// The body of a definition on one value.
#[cycle(walk)]
fn walk_body_on(
    alloc: Global,
    course: &Course<'_>,
    slots: &[&Value],
    depth: u32,
    places: Partial,
    number: DefId,
    value: &Value,
) -> Result<Found, EvalFault>
    requires { BodyGrounded (setting course.now.stage) depth course.now.stage.sees.now places (before course.now.stage (map (λ v. v.now) slots.now)) number.0 (value.now ∷ []) }
    ensures found { IfOk result (λ found. BodyWalked (setting course.now.stage) depth course.now.stage.sees.now places (before course.now.stage (map (λ v. v.now) slots.now)) number.0 (value.now ∷ []) (Ok (listed found))) }
    ensures fault { IfErr result (λ fault. BodyWalked (setting course.now.stage) depth course.now.stage.sees.now places (before course.now.stage (map (λ v. v.now) slots.now)) number.0 (value.now ∷ []) (Err fault)) }
{
    let operator = definition(course.stage.operators, number);
    let body = Part::Plain(&operator.body);
    let outer = operator.outer;
    if outer == 0 {
        return walk_part(alloc, course, &[value], depth, places, body);
    }
    let inner = one_more(alloc, outermost(&*slots, outer), value)?;
    walk_part(alloc, course, &inner, depth, places, body)
}

/// The body of a definition on the values of its arguments.
#[cycle(walk)]
fn walk_body(
    alloc: Global,
    course: &Course<'_>,
    slots: &[&Value],
    depth: u32,
    places: Partial,
    number: DefId,
    values: &[Value],
) -> Result<Found, EvalFault>
    requires { BodyGrounded (setting course.now.stage) depth course.now.stage.sees.now places (before course.now.stage (map (λ v. v.now) slots.now)) number.0 values.now }
    ensures found { IfOk result (λ found. BodyWalked (setting course.now.stage) depth course.now.stage.sees.now places (before course.now.stage (map (λ v. v.now) slots.now)) number.0 values.now (Ok (listed found))) }
    ensures fault { IfErr result (λ fault. BodyWalked (setting course.now.stage) depth course.now.stage.sees.now places (before course.now.stage (map (λ v. v.now) slots.now)) number.0 values.now (Err fault)) }
{
    let operator = definition(course.stage.operators, number);
    let inner = slots_and(alloc, &*slots, operator.outer, values)?;
    walk_part(
        alloc,
        course,
        &inner,
        depth,
        places,
        Part::Plain(&operator.body),
    )
}

/// `\E`: the term under the values of the bound names.
#[cycle(walk)]
fn walk_exists(
    alloc: Global,
    course: &Course<'_>,
    slots: &[&Value],
    depth: u32,
    places: Partial,
    part: Part<'_>,
    bounds: &Bounds,
    body: &Term,
) -> Result<Found, EvalFault>
    requires form { IsForm course.now.stage (map (λ v. v.now) slots.now) part (some bounds.now body.now) }
    requires grounds { PartGrounded course.now.stage (map (λ v. v.now) slots.now) (suc depth) places part }
    ensures found { IfOk result (λ found. PartWalked course.now.stage (map (λ v. v.now) slots.now) (suc depth) places part.entry (Ok (listed found))) }
    ensures fault { IfErr result (λ fault. PartWalked course.now.stage (map (λ v. v.now) slots.now) (suc depth) places part.entry (Err fault)) }
{
    match eval_bounds(
        alloc,
        scene_at(course.stage, &*slots, &places),
        depth,
        bounds,
    ) {
        Ok(sets) => walk_over(alloc, course, slots, depth, &places, &sets, body),
        Err(fault) => Err(fault),
    }
}

/// The same over these sets.
#[cycle(walk)]
fn walk_over(
    alloc: Global,
    course: &Course<'_>,
    slots: &[&Value],
    depth: u32,
    places: &Partial,
    sets: &[BoundSet],
    body: &Term,
) -> Result<Found, EvalFault>
    requires { AnyGrounded (setting course.now.stage) depth course.now.stage.sees.now places.now (under (before course.now.stage (map (λ v. v.now) slots.now)) body.now (combinations (ranges (map bound_members sets.now)))) }
    ensures found { IfOk result (λ found. AnyWalked (setting course.now.stage) depth course.now.stage.sees.now places.now (under (before course.now.stage (map (λ v. v.now) slots.now)) body.now (combinations (ranges (map bound_members sets.now)))) (Ok (listed found))) }
    ensures fault { IfErr result (λ fault. AnyWalked (setting course.now.stage) depth course.now.stage.sees.now places.now (under (before course.now.stage (map (λ v. v.now) slots.now)) body.now (combinations (ranges (map bound_members sets.now)))) (Err fault)) }
{
    let lists = member_lists(alloc, sets)?;
    walk_combinations(alloc, course, slots, depth, places, &lists, body)
}

/// A term under each combination of members.
#[cycle(walk)]
fn walk_combinations(
    alloc: Global,
    course: &Course<'_>,
    slots: &[&Value],
    depth: u32,
    places: &Partial,
    lists: &[&[Value]],
    body: &Term,
) -> Result<Found, EvalFault>
    requires { AnyGrounded (setting course.now.stage) depth course.now.stage.sees.now places.now (under (before course.now.stage (map (λ v. v.now) slots.now)) body.now (combinations (map (λ l. l.now) lists.now))) }
    ensures found { IfOk result (λ found. AnyWalked (setting course.now.stage) depth course.now.stage.sees.now places.now (under (before course.now.stage (map (λ v. v.now) slots.now)) body.now (combinations (map (λ l. l.now) lists.now))) (Ok (listed found))) }
    ensures fault { IfErr result (λ fault. AnyWalked (setting course.now.stage) depth course.now.stage.sees.now places.now (under (before course.now.stage (map (λ v. v.now) slots.now)) body.now (combinations (map (λ l. l.now) lists.now))) (Err fault)) }
{
    let mut found = Found::none(alloc);
    let mut indices = start(alloc, lists)?;
    let mut more = has_combination(lists);
    while more {
        match walk_under(alloc, course, slots, depth, places, lists, &indices, body) {
            Ok(further) => found = joined(alloc, found, further)?,
            Err(fault) => return Err(fault),
        }
        more = advance(lists, &mut indices);
    }
    Ok(found)
}

/// A term under the members at these indices.
#[cycle(walk)]
fn walk_under(
    alloc: Global,
    course: &Course<'_>,
    slots: &[&Value],
    depth: u32,
    places: &Partial,
    lists: &[&[Value]],
    indices: &[usize],
    body: &Term,
) -> Result<Found, EvalFault>
    requires grounds { Grounded (setting course.now.stage) depth course.now.stage.sees.now places.now (bind (before course.now.stage (map (λ v. v.now) slots.now)) (at_places (map (λ l. l.now) lists.now) indices.now)) body.now }
    requires within { AreWithin (map (λ l. l.now) lists.now) indices.now }
    ensures found { IfOk result (λ found. IsWalked (setting course.now.stage) depth course.now.stage.sees.now places.now (bind (before course.now.stage (map (λ v. v.now) slots.now)) (at_places (map (λ l. l.now) lists.now) indices.now)) body.now (Ok (listed found))) }
    ensures fault { IfErr result (λ fault. IsWalked (setting course.now.stage) depth course.now.stage.sees.now places.now (bind (before course.now.stage (map (λ v. v.now) slots.now)) (at_places (map (λ l. l.now) lists.now) indices.now)) body.now (Err fault)) }
{
    let inner = slots_with(alloc, &*slots, &*lists, indices)?;
    walk_copy(alloc, course, &inner, depth, places, Part::Plain(body))
}
