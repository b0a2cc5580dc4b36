//! The walk by the forms of actions.

ghost use Rattle.std.specs.Prelude.{◌≤◌, ◌<◌, ◌∷◌, [], suc, IfOk, map, option_copied};
ghost use Rattle.names_terms.specs.Lists.{arms_list, terms_list};
ghost use Rattle.names_terms.specs.Terms.{place_of};
ghost use Rattle.eval_meanings.specs.Binders.{combinations, ranges};
ghost use Rattle.eval_meanings.specs.Contexts.{bind};
ghost use Rattle.eval_meanings.specs.Unchanged.{unchanged_of};
ghost use Rattle.actions_meanings.specs.Forms.{arms, both, branch, call, changing, either, inside, narrowed, some};
ghost use Rattle.eval_parts.specs.BoundSets.{bound_members};
ghost use Rattle.eval_parts.specs.Walks.{AreWithin, at_places};
ghost use Rattle.actions_rows.specs.Rows.{before, form_of, part_term, setting};
ghost use Rattle.steps_why_walk.specs.Walking.{AllGrounded, AllListed, AnyGrounded, AnyListed, BodyGrounded, BodyListed, EndGrounded, EndsGrounded, IsAfter, IsForm, IsListed, IsOnward, PartGrounded, PartListed, WhyGrounded, parts_of, under};

use crate::changes::altered_ends;
use crate::ends::{append, ends_at, fault_end, one_end, or_no_member};
use crate::failing::{after_first, behind};
use crate::lists::outermost;
use crate::single::{walk_assign, walk_choose, walk_keep, walk_test};
use actions_rows::{
    Part, Row, Stage, chosen_arm, part_place, plain_parts, row_of, scene_at, unchanged_parts,
};
use base_core::NoMemory;
use eval_parts::{
    BoundSet, advance, definition, has_combination, member_lists, slots_and, slots_with, start,
};
use eval_terms::{eval_bounds, eval_each, eval_truth};
use names_terms::{Arms, Bounds, DefId, Term, Terms};
use states_core::Partial;
use std::alloc::Global;
use steps_why_branches::{Ended, Sparing, WhyKind};
use values_core::{EvalKind, Value};

/// The first branches of the term from the places, at most `room` of them, where at most `depth` evaluations stand inside one another: where each was
/// gone through, what is filled then and what was passed over first, or why it ends. What is seen of the next state counts for nothing.
pub fn walk(
    alloc: Global,
    stage: Stage<'_>,
    slots: &[&Value],
    sparing: Sparing,
    depth: u32,
    room: usize,
    places: Partial,
    term: &Term,
) -> Result<Vec<Ended>, NoMemory>
    requires room { 1 ≤ room }
    requires grounds { WhyGrounded (setting stage) depth (before stage (map (λ v. v.now) slots.now)) term.now places }
    ensures { IfOk result (λ ends. IsListed (setting stage.entry) sparing room depth (before stage.entry (map (λ v. v.now) slots.now)) term.now places ends.items) }
{
    walk_part(
        alloc,
        stage,
        slots,
        sparing,
        depth,
        room,
        places,
        Part::Plain(term),
    )
}

/// One term more, behind each of these branches: where one was gone through stands what comes of it, at most `room` in all.
pub fn walk_further(
    alloc: Global,
    stage: Stage<'_>,
    slots: &[&Value],
    sparing: Sparing,
    depth: u32,
    room: usize,
    found: Vec<Ended>,
    term: &Term,
) -> Result<Vec<Ended>, NoMemory>
    requires room { 1 ≤ room }
    requires grounds { EndsGrounded (setting stage) depth (before stage (map (λ v. v.now) slots.now), term.now) found.items }
    ensures { IfOk result (λ ends. IsOnward (setting stage.entry) sparing room depth (before stage.entry (map (λ v. v.now) slots.now), term.now) found.items ends.items) }
{
    walk_on(
        alloc,
        stage,
        slots,
        sparing,
        depth,
        room,
        found,
        Part::Plain(term),
    )
}

/// The same of a part.
#[cycle(walk)]
fn walk_part(
    alloc: Global,
    stage: Stage<'_>,
    slots: &[&Value],
    sparing: Sparing,
    depth: u32,
    room: usize,
    places: Partial,
    part: Part<'_>,
) -> Result<Vec<Ended>, NoMemory>
    requires room { 1 ≤ room }
    requires grounds { PartGrounded stage (map (λ v. v.now) slots.now) depth places part }
    ensures { IfOk result (λ ends. PartListed stage.entry sparing (map (λ v. v.now) slots.now) room depth places part.entry ends.items) }
{
    if depth == 0 {
        return one_end(
            alloc,
            ends_at(part_place(part), WhyKind::Fault(EvalKind::Nested)),
        );
    }
    let row = row_of(stage, slots.len(), part);
    walk_row(
        alloc,
        stage,
        slots,
        sparing,
        depth - 1,
        room,
        places,
        part,
        row,
    )
}

/// The same by the form of the part, whose own parts have `depth` evaluations.
#[cycle(walk)]
fn walk_row(
    alloc: Global,
    stage: Stage<'_>,
    slots: &[&Value],
    sparing: Sparing,
    depth: u32,
    room: usize,
    places: Partial,
    part: Part<'_>,
    row: Row<'_>,
) -> Result<Vec<Ended>, NoMemory>
    requires few { depth < 4294967295 }
    requires room { 1 ≤ room }
    requires row { IsForm stage (map (λ v. v.now) slots.now) part (form_of (place_of (part_term part)) row) }
    requires grounds { PartGrounded stage (map (λ v. v.now) slots.now) (suc depth) places part }
    ensures { IfOk result (λ ends. PartListed stage.entry sparing (map (λ v. v.now) slots.now) room (suc depth) places part.entry ends.items) }
{
    match row {
        Row::Test => walk_test(alloc, stage, slots, sparing, depth, places, part),
        Row::Assign(number, term) => {
            walk_assign(
                alloc, stage, slots, sparing, depth, places, part, number, term,
            )
        }
        Row::Keep(number) => walk_keep(alloc, stage, slots, sparing, depth, places, part, number),
        Row::Choose(number, term) => {
            walk_choose(
                alloc, stage, slots, sparing, depth, room, places, part, number, term,
            )
        }
        Row::Both(terms) => walk_both(
            alloc, stage, slots, sparing, depth, room, places, part, terms,
        ),
        Row::Unchanged(kept, terms) => {
            walk_unchanged(
                alloc, stage, slots, sparing, depth, room, places, part, kept, terms,
            )
        }
        Row::Either(terms) => walk_either(
            alloc, stage, slots, sparing, depth, room, places, part, terms,
        ),
        Row::Boxed(action, subscript) => {
            walk_boxed(
                alloc, stage, slots, sparing, depth, room, places, part, action, subscript,
            )
        }
        Row::Angled(action, subscript) => {
            walk_angled(
                alloc, stage, slots, sparing, depth, room, places, part, action, subscript,
            )
        }
        Row::Exists(bounds, body) => {
            walk_exists(
                alloc, stage, slots, sparing, depth, room, places, part, bounds, body,
            )
        }
        Row::Branch(test, holds, other) => {
            walk_branch(
                alloc, stage, slots, sparing, depth, room, places, part, test, holds, other,
            )
        }
        Row::Case(arms, other) => {
            walk_case(
                alloc, stage, slots, sparing, depth, room, places, part, arms, other,
            )
        }
        Row::Inside(inner) => walk_inside(
            alloc, stage, slots, sparing, depth, room, places, part, inner,
        ),
        Row::Call(number, arguments) => {
            walk_call(
                alloc, stage, slots, sparing, depth, room, places, part, number, arguments,
            )
        }
    }
}

/// All of the terms.
#[cycle(walk)]
fn walk_both(
    alloc: Global,
    stage: Stage<'_>,
    slots: &[&Value],
    sparing: Sparing,
    depth: u32,
    room: usize,
    places: Partial,
    part: Part<'_>,
    terms: &Terms,
) -> Result<Vec<Ended>, NoMemory>
    requires room { 1 ≤ room }
    requires form { IsForm stage (map (λ v. v.now) slots.now) part (both (terms_list terms.now)) }
    requires grounds { PartGrounded stage (map (λ v. v.now) slots.now) (suc depth) places part }
    ensures { IfOk result (λ ends. PartListed stage.entry sparing (map (λ v. v.now) slots.now) room (suc depth) places part.entry ends.items) }
{
    let parts = plain_parts(alloc, terms)?;
    walk_all(alloc, stage, slots, sparing, depth, room, places, &parts)
}

/// That each of the terms is unchanged.
#[cycle(walk)]
fn walk_unchanged(
    alloc: Global,
    stage: Stage<'_>,
    slots: &[&Value],
    sparing: Sparing,
    depth: u32,
    room: usize,
    places: Partial,
    part: Part<'_>,
    kept: usize,
    terms: &Terms,
) -> Result<Vec<Ended>, NoMemory>
    requires room { 1 ≤ room }
    requires form { IsForm stage (map (λ v. v.now) slots.now) part (narrowed kept (map (unchanged_of (place_of (part_term part))) (terms_list terms.now))) }
    requires grounds { PartGrounded stage (map (λ v. v.now) slots.now) (suc depth) places part }
    ensures { IfOk result (λ ends. PartListed stage.entry sparing (map (λ v. v.now) slots.now) room (suc depth) places part.entry ends.items) }
{
    let parts = unchanged_parts(alloc, part_place(part), terms)?;
    let slots = outermost(&*slots, kept);
    walk_all(alloc, stage, slots, sparing, depth, room, places, &parts)
}

/// One of the terms.
#[cycle(walk)]
fn walk_either(
    alloc: Global,
    stage: Stage<'_>,
    slots: &[&Value],
    sparing: Sparing,
    depth: u32,
    room: usize,
    places: Partial,
    part: Part<'_>,
    terms: &Terms,
) -> Result<Vec<Ended>, NoMemory>
    requires room { 1 ≤ room }
    requires form { IsForm stage (map (λ v. v.now) slots.now) part (either (terms_list terms.now)) }
    requires grounds { PartGrounded stage (map (λ v. v.now) slots.now) (suc depth) places part }
    ensures { IfOk result (λ ends. PartListed stage.entry sparing (map (λ v. v.now) slots.now) room (suc depth) places part.entry ends.items) }
{
    let parts = plain_parts(alloc, terms)?;
    let ends = walk_any(alloc, stage, slots, sparing, depth, room, &places, &parts)?;
    or_no_member(alloc, ends, part_place(part))
}

/// `[A]_v`: the action, or that `v` is unchanged.
#[cycle(walk)]
fn walk_boxed(
    alloc: Global,
    stage: Stage<'_>,
    slots: &[&Value],
    sparing: Sparing,
    depth: u32,
    room: usize,
    places: Partial,
    part: Part<'_>,
    action: &Term,
    subscript: &Term,
) -> Result<Vec<Ended>, NoMemory>
    requires room { 1 ≤ room }
    requires form { IsForm stage (map (λ v. v.now) slots.now) part (either (action.now ∷ unchanged_of (place_of (part_term part)) subscript.now ∷ [])) }
    requires grounds { PartGrounded stage (map (λ v. v.now) slots.now) (suc depth) places part }
    ensures { IfOk result (λ ends. PartListed stage.entry sparing (map (λ v. v.now) slots.now) room (suc depth) places part.entry ends.items) }
{
    let parts = [
        Part::Plain(action),
        Part::Unchanged(part_place(part), subscript),
    ];
    walk_any(alloc, stage, slots, sparing, depth, room, &places, &parts)
}

/// `<<A>>_v`: the action, and then that the value of `v` changes.
#[cycle(walk)]
fn walk_angled(
    alloc: Global,
    stage: Stage<'_>,
    slots: &[&Value],
    sparing: Sparing,
    depth: u32,
    room: usize,
    places: Partial,
    part: Part<'_>,
    action: &Term,
    subscript: &Term,
) -> Result<Vec<Ended>, NoMemory>
    requires room { 1 ≤ room }
    requires form { IsForm stage (map (λ v. v.now) slots.now) part (changing action.now subscript.now) }
    requires grounds { PartGrounded stage (map (λ v. v.now) slots.now) (suc depth) places part }
    ensures { IfOk result (λ ends. PartListed stage.entry sparing (map (λ v. v.now) slots.now) room (suc depth) places part.entry ends.items) }
{
    let found = walk_part(
        alloc,
        stage,
        &*slots,
        sparing,
        depth,
        room,
        places,
        Part::Plain(action),
    )?;
    altered_ends(
        alloc,
        stage,
        slots,
        depth,
        part_place(part),
        found,
        subscript,
    )
}

/// All of the parts, one after the other: what ends stays where it stands in the list, and where a branch goes on stands what comes of it.
#[cycle(walk)]
fn walk_all(
    alloc: Global,
    stage: Stage<'_>,
    slots: &[&Value],
    sparing: Sparing,
    depth: u32,
    room: usize,
    places: Partial,
    parts: &[Part<'_>],
) -> Result<Vec<Ended>, NoMemory>
    requires room { 1 ≤ room }
    requires grounds { AllGrounded (setting stage) depth places (parts_of (before stage (map (λ v. v.now) slots.now)) parts.now) }
    ensures { IfOk result (λ ends. AllListed (setting stage.entry) sparing room depth places (parts_of (before stage.entry (map (λ v. v.now) slots.now)) parts.now) ends.items) }
{
    let mut found = one_end(alloc, Ended::Passed(places, None))?;
    for part in parts {
        match walk_on(alloc, stage, slots, sparing, depth, room, found, *part) {
            Ok(further) => found = further,
            Err(error) => return Err(error),
        }
    }
    Ok(found)
}

/// One part more, of each of the branches that goes on.
#[cycle(walk)]
fn walk_on(
    alloc: Global,
    stage: Stage<'_>,
    slots: &[&Value],
    sparing: Sparing,
    depth: u32,
    room: usize,
    found: Vec<Ended>,
    part: Part<'_>,
) -> Result<Vec<Ended>, NoMemory>
    requires room { 1 ≤ room }
    requires grounds { EndsGrounded (setting stage) depth (before stage (map (λ v. v.now) slots.now), part_term part) found.items }
    ensures { IfOk result (λ ends. IsOnward (setting stage.entry) sparing room depth (before stage.entry (map (λ v. v.now) slots.now), part_term part.entry) found.items ends.items) }
{
    let mut all = Vec::new(alloc);
    for end in found {
        if all.len() < room {
            match walk_end(
                alloc,
                stage,
                slots,
                sparing,
                depth,
                room - all.len(),
                end,
                part,
            ) {
                Ok(more) => append(&mut all, more)?,
                Err(error) => return Err(error),
            }
        } else {
            drop(end);
        }
    }
    Ok(all)
}

/// What comes of a branch with one part more.
#[cycle(walk)]
fn walk_end(
    alloc: Global,
    stage: Stage<'_>,
    slots: &[&Value],
    sparing: Sparing,
    depth: u32,
    room: usize,
    end: Ended,
    part: Part<'_>,
) -> Result<Vec<Ended>, NoMemory>
    requires room { 1 ≤ room }
    requires grounds { EndGrounded (setting stage) depth (before stage (map (λ v. v.now) slots.now), part_term part) end }
    ensures { IfOk result (λ ends. IsAfter (setting stage.entry) sparing room depth (before stage.entry (map (λ v. v.now) slots.now), part_term part.entry) end ends.items) }
{
    match end {
        Ended::Passed(places, spared) => {
            let open = after_first(sparing, &spared);
            let ends = walk_part(alloc, stage, slots, open, depth, room, places, part)?;
            behind(alloc, ends, spared)
        }
        Ended::Ends(why) => one_end(alloc, Ended::Ends(why)),
    }
}

/// One of the parts.
#[cycle(walk)]
fn walk_any(
    alloc: Global,
    stage: Stage<'_>,
    slots: &[&Value],
    sparing: Sparing,
    depth: u32,
    room: usize,
    places: &Partial,
    parts: &[Part<'_>],
) -> Result<Vec<Ended>, NoMemory>
    requires room { 1 ≤ room }
    requires grounds { AnyGrounded (setting stage) depth places.now (parts_of (before stage (map (λ v. v.now) slots.now)) parts.now) }
    ensures { IfOk result (λ ends. AnyListed (setting stage.entry) sparing room depth places.now (parts_of (before stage.entry (map (λ v. v.now) slots.now)) parts.now) ends.items) }
{
    let mut all = Vec::new(alloc);
    for part in parts {
        if all.len() >= room {
            return Ok(all);
        }
        match walk_copy(
            alloc,
            stage,
            slots,
            sparing,
            depth,
            room - all.len(),
            places,
            *part,
        ) {
            Ok(more) => append(&mut all, more)?,
            Err(error) => return Err(error),
        }
    }
    Ok(all)
}

/// A part from a copy of the places.
#[cycle(walk)]
fn walk_copy(
    alloc: Global,
    stage: Stage<'_>,
    slots: &[&Value],
    sparing: Sparing,
    depth: u32,
    room: usize,
    places: &Partial,
    part: Part<'_>,
) -> Result<Vec<Ended>, NoMemory>
    requires room { 1 ≤ room }
    requires grounds { PartGrounded stage (map (λ v. v.now) slots.now) depth places.now part }
    ensures { IfOk result (λ ends. PartListed stage.entry sparing (map (λ v. v.now) slots.now) room depth places.now part.entry ends.items) }
{
    let same = places.copy(alloc)?;
    walk_part(alloc, stage, slots, sparing, depth, room, same, part)
}

/// IF: the one term or the other.
#[cycle(walk)]
fn walk_branch(
    alloc: Global,
    stage: Stage<'_>,
    slots: &[&Value],
    sparing: Sparing,
    depth: u32,
    room: usize,
    places: Partial,
    part: Part<'_>,
    test: &Term,
    holds: &Term,
    other: &Term,
) -> Result<Vec<Ended>, NoMemory>
    requires room { 1 ≤ room }
    requires form { IsForm stage (map (λ v. v.now) slots.now) part (branch test.now holds.now other.now) }
    requires grounds { PartGrounded stage (map (λ v. v.now) slots.now) (suc depth) places part }
    ensures { IfOk result (λ ends. PartListed stage.entry sparing (map (λ v. v.now) slots.now) room (suc depth) places part.entry ends.items) }
{
    match eval_truth(alloc, scene_at(stage, &*slots, &places), depth, test) {
        Ok(true) => walk_part(
            alloc,
            stage,
            slots,
            sparing,
            depth,
            room,
            places,
            Part::Plain(holds),
        ),
        Ok(false) => walk_part(
            alloc,
            stage,
            slots,
            sparing,
            depth,
            room,
            places,
            Part::Plain(other),
        ),
        Err(fault) => {
            let end = fault_end(fault)?;
            one_end(alloc, end)
        }
    }
}

/// CASE: what stands behind the first test that is true, or the last.
#[cycle(walk)]
fn walk_case(
    alloc: Global,
    stage: Stage<'_>,
    slots: &[&Value],
    sparing: Sparing,
    depth: u32,
    room: usize,
    places: Partial,
    part: Part<'_>,
    cases: &Arms,
    other: Option<&Term>,
) -> Result<Vec<Ended>, NoMemory>
    requires room { 1 ≤ room }
    requires form { IsForm stage (map (λ v. v.now) slots.now) part (arms (arms_list cases.now) (option_copied other)) }
    requires grounds { PartGrounded stage (map (λ v. v.now) slots.now) (suc depth) places part }
    ensures { IfOk result (λ ends. PartListed stage.entry sparing (map (λ v. v.now) slots.now) room (suc depth) places part.entry ends.items) }
{
    let scene = scene_at(stage, &*slots, &places);
    match chosen_arm(alloc, scene, depth, part_place(part), cases, other) {
        Ok(term) => walk_part(
            alloc,
            stage,
            slots,
            sparing,
            depth,
            room,
            places,
            Part::Plain(term),
        ),
        Err(fault) => {
            let end = fault_end(fault)?;
            one_end(alloc, end)
        }
    }
}

/// A term inside another.
#[cycle(walk)]
fn walk_inside(
    alloc: Global,
    stage: Stage<'_>,
    slots: &[&Value],
    sparing: Sparing,
    depth: u32,
    room: usize,
    places: Partial,
    part: Part<'_>,
    inner: &Term,
) -> Result<Vec<Ended>, NoMemory>
    requires room { 1 ≤ room }
    requires form { IsForm stage (map (λ v. v.now) slots.now) part (inside inner.now) }
    requires grounds { PartGrounded stage (map (λ v. v.now) slots.now) (suc depth) places part }
    ensures { IfOk result (λ ends. PartListed stage.entry sparing (map (λ v. v.now) slots.now) room (suc depth) places part.entry ends.items) }
{
    walk_part(
        alloc,
        stage,
        slots,
        sparing,
        depth,
        room,
        places,
        Part::Plain(inner),
    )
}

/// A definition on arguments, which are evaluated first.
#[cycle(walk)]
fn walk_call(
    alloc: Global,
    stage: Stage<'_>,
    slots: &[&Value],
    sparing: Sparing,
    depth: u32,
    room: usize,
    places: Partial,
    part: Part<'_>,
    number: DefId,
    arguments: &Terms,
) -> Result<Vec<Ended>, NoMemory>
    requires room { 1 ≤ room }
    requires form { IsForm stage (map (λ v. v.now) slots.now) part (call number.0 (terms_list arguments.now)) }
    requires grounds { PartGrounded stage (map (λ v. v.now) slots.now) (suc depth) places part }
    ensures { IfOk result (λ ends. PartListed stage.entry sparing (map (λ v. v.now) slots.now) room (suc depth) places part.entry ends.items) }
{
    match eval_each(alloc, scene_at(stage, &*slots, &places), depth, arguments) {
        Ok(values) => {
            let inner = Sparing {
                at: sparing.at,
                call: Some(number),
            };
            walk_body(
                alloc, stage, slots, inner, depth, room, places, number, &values,
            )
        }
        Err(fault) => {
            let end = fault_end(fault)?;
            one_end(alloc, end)
        }
    }
}

/// The body of a definition on the values of its arguments.
#[cycle(walk)]
fn walk_body(
    alloc: Global,
    stage: Stage<'_>,
    slots: &[&Value],
    sparing: Sparing,
    depth: u32,
    room: usize,
    places: Partial,
    number: DefId,
    values: &[Value],
) -> Result<Vec<Ended>, NoMemory>
    requires room { 1 ≤ room }
    requires grounds { BodyGrounded (setting stage) depth (before stage (map (λ v. v.now) slots.now)) number.0 values.now places }
    ensures { IfOk result (λ ends. BodyListed (setting stage.entry) sparing room depth (before stage.entry (map (λ v. v.now) slots.now)) number.0 values.now places ends.items) }
{
    let operator = definition(stage.operators, number);
    let inner = slots_and(alloc, &*slots, operator.outer, values)?;
    let body = Part::Plain(&operator.body);
    walk_part(alloc, stage, &inner, sparing, depth, room, places, body)
}

/// `\E`: the term under the values of the bound names.
#[cycle(walk)]
fn walk_exists(
    alloc: Global,
    stage: Stage<'_>,
    slots: &[&Value],
    sparing: Sparing,
    depth: u32,
    room: usize,
    places: Partial,
    part: Part<'_>,
    bounds: &Bounds,
    body: &Term,
) -> Result<Vec<Ended>, NoMemory>
    requires room { 1 ≤ room }
    requires form { IsForm stage (map (λ v. v.now) slots.now) part (some bounds.now body.now) }
    requires grounds { PartGrounded stage (map (λ v. v.now) slots.now) (suc depth) places part }
    ensures { IfOk result (λ ends. PartListed stage.entry sparing (map (λ v. v.now) slots.now) room (suc depth) places part.entry ends.items) }
{
    match eval_bounds(alloc, scene_at(stage, &*slots, &places), depth, bounds) {
        Ok(sets) => {
            let ends = walk_over(
                alloc, stage, slots, sparing, depth, room, &places, &sets, body,
            )?;
            or_no_member(alloc, ends, part_place(part))
        }
        Err(fault) => {
            let end = fault_end(fault)?;
            one_end(alloc, end)
        }
    }
}

/// The same over these sets.
#[cycle(walk)]
fn walk_over(
    alloc: Global,
    stage: Stage<'_>,
    slots: &[&Value],
    sparing: Sparing,
    depth: u32,
    room: usize,
    places: &Partial,
    sets: &[BoundSet],
    body: &Term,
) -> Result<Vec<Ended>, NoMemory>
    requires room { 1 ≤ room }
    requires grounds { AnyGrounded (setting stage) depth places.now (under (before stage (map (λ v. v.now) slots.now)) body.now (combinations (ranges (map bound_members sets.now)))) }
    ensures { IfOk result (λ ends. AnyListed (setting stage.entry) sparing room depth places.now (under (before stage.entry (map (λ v. v.now) slots.now)) body.now (combinations (ranges (map bound_members sets.now)))) ends.items) }
{
    let lists = member_lists(alloc, sets)?;
    walk_combinations(
        alloc, stage, slots, sparing, depth, room, places, &lists, body,
    )
}

/// A term under each combination of members.
#[cycle(walk)]
fn walk_combinations(
    alloc: Global,
    stage: Stage<'_>,
    slots: &[&Value],
    sparing: Sparing,
    depth: u32,
    room: usize,
    places: &Partial,
    lists: &[&[Value]],
    body: &Term,
) -> Result<Vec<Ended>, NoMemory>
    requires room { 1 ≤ room }
    requires grounds { AnyGrounded (setting stage) depth places.now (under (before stage (map (λ v. v.now) slots.now)) body.now (combinations (map (λ l. l.now) lists.now))) }
    ensures { IfOk result (λ ends. AnyListed (setting stage.entry) sparing room depth places.now (under (before stage.entry (map (λ v. v.now) slots.now)) body.now (combinations (map (λ l. l.now) lists.now))) ends.items) }
{
    let mut all = Vec::new(alloc);
    let mut indices = start(alloc, lists)?;
    let mut more = has_combination(lists);
    while more {
        if all.len() >= room {
            return Ok(all);
        }
        let left = room - all.len();
        match walk_under(
            alloc, stage, slots, sparing, depth, left, places, lists, &indices, body,
        ) {
            Ok(further) => append(&mut all, further)?,
            Err(error) => return Err(error),
        }
        more = advance(lists, &mut indices);
    }
    Ok(all)
}

/// A term under the members at these indices.
#[cycle(walk)]
fn walk_under(
    alloc: Global,
    stage: Stage<'_>,
    slots: &[&Value],
    sparing: Sparing,
    depth: u32,
    room: usize,
    places: &Partial,
    lists: &[&[Value]],
    indices: &[usize],
    body: &Term,
) -> Result<Vec<Ended>, NoMemory>
    requires room { 1 ≤ room }
    requires grounds { WhyGrounded (setting stage) depth (bind (before stage (map (λ v. v.now) slots.now)) (at_places (map (λ l. l.now) lists.now) indices.now)) body.now places.now }
    requires within { AreWithin (map (λ l. l.now) lists.now) indices.now }
    ensures { IfOk result (λ ends. IsListed (setting stage.entry) sparing room depth (bind (before stage.entry (map (λ v. v.now) slots.now)) (at_places (map (λ l. l.now) lists.now) indices.now)) body.now places.now ends.items) }
{
    let inner = slots_with(alloc, &*slots, &*lists, indices)?;
    walk_copy(
        alloc,
        stage,
        &inner,
        sparing,
        depth,
        room,
        places,
        Part::Plain(body),
    )
}
