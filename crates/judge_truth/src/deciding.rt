//! The decision by the forms of actions.

ghost use Rattle.std.specs.Prelude.{◌≡◌, ◌<◌, ◌||◌, ◌∷◌, [], suc, Err, IfOk, Ok, Result, map, option_copied};
ghost use Rattle.names_terms.specs.Lists.{arms_list, terms_list};
ghost use Rattle.names_terms.specs.Terms.{place_of};
ghost use Rattle.eval_meanings.specs.Binders.{combinations, ranges, with_each};
ghost use Rattle.eval_meanings.specs.Unchanged.{unchanged_of};
ghost use Rattle.actions_meanings.specs.Forms.{arms, assign, both, branch, call, changing, choose, either, inside, narrowed, some, test};
ghost use Rattle.eval_parts.specs.Following.{variable_at};
ghost use Rattle.steps_found_states.specs.Grounds.{Grounds};
ghost use Rattle.actions_rows.specs.Rows.{form_of, part_term};
ghost use Rattle.eval_parts.specs.BoundSets.{bound_members};
ghost use Rattle.judge_truth.specs.Pairs.{at, setting};
ghost use Rattle.judge_truth.specs.Truths.{AreStates, IsTold, IsWhole, everything};
ghost use Rattle.judge_truth.specs.Deciding.{AllDecided, AllReady, AnyDecided, AnyReady, BodyDecided, BodyReady, IsForm, IsToldFault, PartDecided, PartReady, parts_at, under};

use crate::pair::{Pair, narrowed, pair_with, stage_of};
use crate::told::Told;
use crate::values::{has_member, has_one_value, has_value};
use actions_form_laws::growth_law;
use actions_rows::{
    Part, Row, changed_truth, chosen_arm, part_place, part_truth, plain_parts, row_of,
    unchanged_parts,
};
use eval_meanings::EvalFault;
use eval_parts::{BoundSet, definition, member_lists, one_more, slots_and};
use eval_terms::{describe_set, eval, eval_bounds, eval_each, eval_truth};
use names_terms::{Arms, Bounds, DefId, Term, Terms};
use states_core::{Fault, VarId};
use std::alloc::{AllocError, Global};
use values_core::{EvalKind, Value};

/// Whether the action holds of the two states, where at most `depth` evaluations stand inside one another, or a fault that it has. Each of several
/// choices is asked, since a fault of any is one of the whole; of terms that must all hold, none behind one that does not.
pub fn decide(alloc: Global, pair: Pair<'_>, depth: u32, term: &Term) -> Result<Told, AllocError>
    requires states { AreStates pair.which (at pair).now (at pair).next }
    requires whole { IsWhole (at pair).next }
    requires grounds { Grounds (setting pair) depth [] everything (at pair).next (at pair) term.now }
    ensures { IfOk result (IsTold (setting pair.entry) depth (at pair.entry) term.now) }
{
    match decide_part(alloc, pair, depth, Part::Plain(term)) {
        Ok(true) => Ok(Told::Holds),
        Ok(false) => Ok(Told::HoldsNot),
        Err(fault) => told_fault(fault),
    }
}

/// The fault, or that memory is wanted.
fn told_fault(fault: EvalFault) -> Result<Told, AllocError>
    ensures { IfOk result (IsToldFault fault) }
{
    match fault {
        EvalFault::Refused(kind, at) => Ok(Told::Faults(Fault { kind, at })),
        EvalFault::NoMemory => Err(AllocError),
    }
}

/// The same of a part.
#[cycle(decide)]
fn decide_part(alloc: Global, pair: Pair<'_>, depth: u32, part: Part<'_>) -> Result<bool, EvalFault>
    requires { PartReady pair depth part }
    ensures { PartDecided pair.entry depth part.entry result }
{
    if depth == 0 {
        return Err(EvalFault::Refused(EvalKind::Nested, part_place(part)));
    }
    let row = row_of(stage_of(pair), pair.scene.slots.len(), part);
    decide_row(alloc, pair, depth - 1, part, row)
}

/// The same by the form of the part, whose own parts have `depth` evaluations.
#[cycle(decide)]
fn decide_row(
    alloc: Global,
    pair: Pair<'_>,
    depth: u32,
    part: Part<'_>,
    row: Row<'_>,
) -> Result<bool, EvalFault>
    requires few { depth < 4294967295 }
    requires row { IsForm pair part (form_of (place_of (part_term part)) row) }
    requires ready { PartReady pair (suc depth) part }
    ensures { PartDecided pair.entry (suc depth) part.entry result }
{
    match row {
        Row::Test => decide_test(alloc, pair, depth, part),
        Row::Assign(number, term) => decide_assign(alloc, pair, depth, part, number, term),
        Row::Keep(number) => decide_keep(alloc, pair, depth, part, number),
        Row::Choose(number, term) => decide_choose(alloc, pair, depth, part, number, term),
        Row::Both(terms) => decide_both(alloc, pair, depth, part, terms),
        Row::Unchanged(kept, terms) => decide_unchanged(alloc, pair, depth, part, kept, terms),
        Row::Either(terms) => decide_either(alloc, pair, depth, part, terms),
        Row::Boxed(action, subscript) => {
            decide_boxed(alloc, pair, depth, part, action, subscript)
        }
        Row::Angled(action, subscript) => {
            decide_angled(alloc, pair, depth, part, action, subscript)
        }
        Row::Exists(bounds, body) => decide_exists(alloc, pair, depth, part, bounds, body),
        Row::Branch(test, holds, other) => {
            decide_branch(alloc, pair, depth, part, test, holds, other)
        }
        Row::Case(cases, other) => decide_case(alloc, pair, depth, part, cases, other),
        Row::Inside(inner) => decide_inside(alloc, pair, depth, part, inner),
        Row::Call(number, arguments) => decide_call(alloc, pair, depth, part, number, arguments),
    }
}

/// A part that is a test.
fn decide_test(alloc: Global, pair: Pair<'_>, depth: u32, part: Part<'_>) -> Result<bool, EvalFault>
    requires few { depth < 4294967295 }
    requires form { IsForm pair part (test) }
    requires ready { PartReady pair (suc depth) part }
    ensures { PartDecided pair.entry (suc depth) part.entry result }
{
    part_truth(alloc, pair.scene, depth + 1, part)
}

/// A variable that has the value of a term.
fn decide_assign(
    alloc: Global,
    pair: Pair<'_>,
    depth: u32,
    part: Part<'_>,
    number: VarId,
    term: &Term,
) -> Result<bool, EvalFault>
    requires form { IsForm pair part (assign number.0 term.now) }
    requires ready { PartReady pair (suc depth) part }
    ensures { PartDecided pair.entry (suc depth) part.entry result }
{
    match eval(alloc, pair.scene, depth, term) {
        Err(fault) => Err(fault),
        Ok(value) => Ok(has_value(pair.scene.next, number, &value)),
    }
}

/// A variable that keeps its value.
fn decide_keep(
    alloc: Global,
    pair: Pair<'_>,
    depth: u32,
    part: Part<'_>,
    number: VarId,
) -> Result<bool, EvalFault>
    requires form { IsForm pair part (assign number.0 (variable_at (place_of (part_term part)) number.0)) }
    requires ready { PartReady pair (suc depth) part }
    ensures { PartDecided pair.entry (suc depth) part.entry result }
{
    let _ = alloc;
    if depth == 0 {
        return Err(EvalFault::Refused(EvalKind::Nested, part_place(part)));
    }
    Ok(has_one_value(pair.scene.state, pair.scene.next, number))
}

/// A variable whose value is a member of the set that a term means.
fn decide_choose(
    alloc: Global,
    pair: Pair<'_>,
    depth: u32,
    part: Part<'_>,
    number: VarId,
    term: &Term,
) -> Result<bool, EvalFault>
    requires form { IsForm pair part (choose number.0 term.now) }
    requires ready { PartReady pair (suc depth) part }
    ensures { PartDecided pair.entry (suc depth) part.entry result }
{
    match describe_set(alloc, pair.scene, depth, term) {
        Err(fault) => Err(fault),
        Ok(set) => {
            let belongs = has_member(pair.scene.next, number, &set);
            drop(set);
            Ok(belongs)
        }
    }
}

/// All of the terms.
#[cycle(decide)]
fn decide_both(
    alloc: Global,
    pair: Pair<'_>,
    depth: u32,
    part: Part<'_>,
    terms: &Terms,
) -> Result<bool, EvalFault>
    requires form { IsForm pair part (both (terms_list terms.now)) }
    requires ready { PartReady pair (suc depth) part }
    ensures { PartDecided pair.entry (suc depth) part.entry result }
{
    let parts = plain_parts(alloc, terms)?;
    decide_all(alloc, pair, depth, &parts)
}

/// That each of the terms is unchanged, where so many slots are in scope.
#[cycle(decide)]
fn decide_unchanged(
    alloc: Global,
    pair: Pair<'_>,
    depth: u32,
    part: Part<'_>,
    kept: usize,
    terms: &Terms,
) -> Result<bool, EvalFault>
    requires form { IsForm pair part (narrowed kept (map (unchanged_of (place_of (part_term part))) (terms_list terms.now))) }
    requires ready { PartReady pair (suc depth) part }
    ensures { PartDecided pair.entry (suc depth) part.entry result }
{
    let parts = unchanged_parts(alloc, part_place(part), terms)?;
    decide_all(alloc, narrowed(pair, kept), depth, &parts)
}

/// One of the terms.
#[cycle(decide)]
fn decide_either(
    alloc: Global,
    pair: Pair<'_>,
    depth: u32,
    part: Part<'_>,
    terms: &Terms,
) -> Result<bool, EvalFault>
    requires form { IsForm pair part (either (terms_list terms.now)) }
    requires ready { PartReady pair (suc depth) part }
    ensures { PartDecided pair.entry (suc depth) part.entry result }
{
    let parts = plain_parts(alloc, terms)?;
    decide_any(alloc, pair, depth, &parts)
}

/// `[A]_v`: the action, or that `v` is unchanged.
#[cycle(decide)]
fn decide_boxed(
    alloc: Global,
    pair: Pair<'_>,
    depth: u32,
    part: Part<'_>,
    action: &Term,
    subscript: &Term,
) -> Result<bool, EvalFault>
    requires form { IsForm pair part (either (action.now ∷ unchanged_of (place_of (part_term part)) subscript.now ∷ [])) }
    requires ready { PartReady pair (suc depth) part }
    ensures { PartDecided pair.entry (suc depth) part.entry result }
{
    let parts = [
        Part::Plain(action),
        Part::Unchanged(part_place(part), subscript),
    ];
    decide_any(alloc, pair, depth, &parts)
}

/// `<<A>>_v`: the action, and then that the value of `v` changes.
#[cycle(decide)]
fn decide_angled(
    alloc: Global,
    pair: Pair<'_>,
    depth: u32,
    part: Part<'_>,
    action: &Term,
    subscript: &Term,
) -> Result<bool, EvalFault>
    requires form { IsForm pair part (changing action.now subscript.now) }
    requires ready { PartReady pair (suc depth) part }
    ensures { PartDecided pair.entry (suc depth) part.entry result }
{
    growth_law();
    match decide_part(alloc, pair, depth, Part::Plain(action)) {
        Err(fault) => Err(fault),
        Ok(false) => Ok(false),
        Ok(true) => changed_truth(alloc, pair.scene, depth, part_place(part), subscript),
    }
}

/// IF: the one term or the other.
#[cycle(decide)]
fn decide_branch(
    alloc: Global,
    pair: Pair<'_>,
    depth: u32,
    part: Part<'_>,
    test: &Term,
    holds: &Term,
    other: &Term,
) -> Result<bool, EvalFault>
    requires form { IsForm pair part (branch test.now holds.now other.now) }
    requires ready { PartReady pair (suc depth) part }
    ensures { PartDecided pair.entry (suc depth) part.entry result }
{
    match eval_truth(alloc, pair.scene, depth, test) {
        Err(fault) => Err(fault),
        Ok(false) => decide_part(alloc, pair, depth, Part::Plain(other)),
        Ok(true) => decide_part(alloc, pair, depth, Part::Plain(holds)),
    }
}

/// CASE: the term that it comes to.
#[cycle(decide)]
fn decide_case(
    alloc: Global,
    pair: Pair<'_>,
    depth: u32,
    part: Part<'_>,
    cases: &Arms,
    other: Option<&Term>,
) -> Result<bool, EvalFault>
    requires form { IsForm pair part (arms (arms_list cases.now) (option_copied other)) }
    requires ready { PartReady pair (suc depth) part }
    ensures { PartDecided pair.entry (suc depth) part.entry result }
{
    match chosen_arm(alloc, pair.scene, depth, part_place(part), cases, other) {
        Err(fault) => Err(fault),
        Ok(term) => decide_part(alloc, pair, depth, Part::Plain(term)),
    }
}

/// A term inside another.
#[cycle(decide)]
fn decide_inside(
    alloc: Global,
    pair: Pair<'_>,
    depth: u32,
    part: Part<'_>,
    inner: &Term,
) -> Result<bool, EvalFault>
    requires form { IsForm pair part (inside inner.now) }
    requires ready { PartReady pair (suc depth) part }
    ensures { PartDecided pair.entry (suc depth) part.entry result }
{
    decide_part(alloc, pair, depth, Part::Plain(inner))
}

/// A definition on arguments, which are evaluated first.
#[cycle(decide)]
fn decide_call(
    alloc: Global,
    pair: Pair<'_>,
    depth: u32,
    part: Part<'_>,
    number: DefId,
    arguments: &Terms,
) -> Result<bool, EvalFault>
    requires form { IsForm pair part (call number.0 (terms_list arguments.now)) }
    requires ready { PartReady pair (suc depth) part }
    ensures { PartDecided pair.entry (suc depth) part.entry result }
{
    match eval_each(alloc, pair.scene, depth, arguments) {
        Err(fault) => Err(fault),
        Ok(values) => decide_body(alloc, pair, depth, number, &values),
    }
}

/// `\E`: the term under the values of the bound names.
#[cycle(decide)]
fn decide_exists(
    alloc: Global,
    pair: Pair<'_>,
    depth: u32,
    part: Part<'_>,
    bounds: &Bounds,
    body: &Term,
) -> Result<bool, EvalFault>
    requires form { IsForm pair part (some bounds.now body.now) }
    requires ready { PartReady pair (suc depth) part }
    ensures { PartDecided pair.entry (suc depth) part.entry result }
{
    match eval_bounds(alloc, pair.scene, depth, bounds) {
        Err(fault) => Err(fault),
        Ok(found) => decide_ranges(alloc, pair, depth, &found, body),
    }
}

/// The body of a definition on the values of its arguments.
#[cycle(decide)]
fn decide_body(
    alloc: Global,
    pair: Pair<'_>,
    depth: u32,
    number: DefId,
    values: &[Value],
) -> Result<bool, EvalFault>
    requires { BodyReady (setting pair) depth (at pair) number.0 values.now }
    ensures { BodyDecided (setting pair.entry) depth (at pair.entry) number.0 values.now result }
{
    let operator = definition(pair.scene.operators, number);
    let slots = slots_and(alloc, pair.scene.slots, operator.outer, values)?;
    let inner = pair_with(pair, &slots);
    decide_part(alloc, inner, depth, Part::Plain(&operator.body))
}

/// All of the parts, up to one that does not hold.
#[cycle(decide)]
fn decide_all(
    alloc: Global,
    pair: Pair<'_>,
    depth: u32,
    parts: &[Part<'_>],
) -> Result<bool, EvalFault>
    requires { AllReady (setting pair) depth (at pair) (parts_at (at pair) parts.now) }
    ensures { AllDecided (setting pair.entry) depth (at pair.entry).next (parts_at (at pair.entry) parts.now) result }
{
    growth_law();
    for part in parts {
        match decide_part(alloc, pair, depth, *part) {
            Err(fault) => return Err(fault),
            Ok(false) => return Ok(false),
            Ok(true) => {}
        }
    }
    Ok(true)
}

/// One of the parts, each of which is asked.
#[cycle(decide)]
fn decide_any(
    alloc: Global,
    pair: Pair<'_>,
    depth: u32,
    parts: &[Part<'_>],
) -> Result<bool, EvalFault>
    requires { AnyReady (setting pair) depth (at pair) (parts_at (at pair) parts.now) }
    ensures { AnyDecided (setting pair.entry) depth (at pair.entry).next (parts_at (at pair.entry) parts.now) result }
{
    let mut holds = false;
    for part in parts {
        match decide_part(alloc, pair, depth, *part) {
            Err(fault) => return Err(fault),
            Ok(more) => holds = one_holds(holds, more),
        }
    }
    Ok(holds)
}

fn one_holds(first: bool, second: bool) -> bool
    ensures { result ≡ (first || second) }
{
    first || second
}

/// A term under each choice of members, one of each range for each of its names.
#[cycle(decide)]
fn decide_ranges(
    alloc: Global,
    pair: Pair<'_>,
    depth: u32,
    found: &[BoundSet],
    body: &Term,
) -> Result<bool, EvalFault>
    requires { AnyReady (setting pair) depth (at pair) (under (at pair) body.now (combinations (ranges (map bound_members found.now)))) }
    ensures { AnyDecided (setting pair.entry) depth (at pair.entry).next (under (at pair.entry) body.now (combinations (ranges (map bound_members found.now)))) result }
{
    let lists = member_lists(alloc, found)?;
    decide_lists(alloc, pair, depth, &lists, body)
}

/// A term under each choice of members, one of each list.
#[cycle(decide)]
fn decide_lists(
    alloc: Global,
    pair: Pair<'_>,
    depth: u32,
    lists: &[&[Value]],
    body: &Term,
) -> Result<bool, EvalFault>
    requires { AnyReady (setting pair) depth (at pair) (under (at pair) body.now (combinations (map (λ l. l.now) lists.now))) }
    ensures { AnyDecided (setting pair.entry) depth (at pair.entry).next (under (at pair.entry) body.now (combinations (map (λ l. l.now) lists.now))) result }
{
    let count = lists.len();
    if count == 0 {
        return decide_part(alloc, pair, depth, Part::Plain(body));
    }
    decide_members(alloc, pair, depth, lists[0], &lists[1..], body)
}

/// The same, where the first member is one of these.
#[cycle(decide)]
fn decide_members(
    alloc: Global,
    pair: Pair<'_>,
    depth: u32,
    members: &[Value],
    others: &[&[Value]],
    body: &Term,
) -> Result<bool, EvalFault>
    requires { AnyReady (setting pair) depth (at pair) (under (at pair) body.now (with_each members.now (combinations (map (λ l. l.now) others.now)))) }
    ensures { AnyDecided (setting pair.entry) depth (at pair.entry).next (under (at pair.entry) body.now (with_each members.now (combinations (map (λ l. l.now) others.now)))) result }
{
    let mut holds = false;
    for member in members {
        match decide_member(alloc, pair, depth, member, others, body) {
            Err(fault) => return Err(fault),
            Ok(more) => holds = one_holds(holds, more),
        }
    }
    Ok(holds)
}

/// The same, where the first member is this.
#[cycle(decide)]
fn decide_member(
    alloc: Global,
    pair: Pair<'_>,
    depth: u32,
    member: &Value,
    others: &[&[Value]],
    body: &Term,
) -> Result<bool, EvalFault>
    requires { AnyReady (setting pair) depth (at pair) (under (at pair) body.now (map (λ chosen. member.now ∷ chosen) (combinations (map (λ l. l.now) others.now)))) }
    ensures { AnyDecided (setting pair.entry) depth (at pair.entry).next (under (at pair.entry) body.now (map (λ chosen. member.now ∷ chosen) (combinations (map (λ l. l.now) others.now)))) result }
{
    let slots = one_more(alloc, pair.scene.slots, member)?;
    let inner = pair_with(pair, &slots);
    decide_lists(alloc, inner, depth, others, body)
}
