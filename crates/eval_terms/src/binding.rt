//! What binds names: sets by a test, CHOOSE, quantifiers, sets of values, and functions.

ghost use Rattle.std.specs.Prelude.{◌≡◌, [], ◌∷◌, IfErr, IfOk, Ok, length, map};
ghost use Rattle.values_core.specs.Sets.{items_of};
ghost use Rattle.eval_meanings.specs.Answers.{Tells};
ghost use Rattle.eval_meanings.specs.Binders.{FirstThat, MembersOf, Passing, BoundValues, combinations, ranges};
ghost use Rattle.eval_meanings.specs.Contexts.{bind};
ghost use Rattle.eval_meanings.specs.Evaluates.{Evaluates};
ghost use Rattle.eval_meanings.specs.Meanings.{FunctionOfAll, SetOfAll, PairOf, QuantifiedEvaluates};
ghost use Rattle.eval_meanings.specs.Outcomes.{AllTrue, Each, SomeTrue, Then};
ghost use Rattle.eval_meanings.specs.Unchanged.{TruthOf};
ghost use Rattle.names_terms.specs.Lists.{bounds_list};
ghost use Rattle.names_terms.specs.Terms.{width};
ghost use Rattle.names_terms.specs.TermViews.{bound_item};
ghost use Rattle.eval_meanings.specs.Reads.{Reads, ReadsUnder, BoundsRead};
ghost use Rattle.eval_parts.specs.Scenes.{Stops, context, table};
ghost use Rattle.eval_parts.specs.BoundSets.{BoundEvaluates, bound_members, bound_value};
ghost use Rattle.eval_parts.specs.Walks.{AreWithin, Decided, at_places};

use crate::evaluate::{eval, eval_truth};
use base_core::Place;
use eval_meanings::{EvalFault, function_of, set_of, truth_at};
use eval_parts::{
    BoundSet, Scene, advance, bound_set, expect_sets, has_combination, key_with, member_lists,
    one_more, push, push_if, set_in, slots_with, start, with_slots,
};
use names_terms::{Bound, Bounds, Term};
use reading_trees::Quantifier;
use std::alloc::Global;
use values_core::{EvalKind, Value};

/// The truth value of a term where a value is bound.
#[cycle(evaluate)]
fn truth_under(
    alloc: Global,
    scene: Scene<'_>,
    depth: u32,
    term: &Term,
    value: &Value,
) -> Result<bool, EvalFault>
    requires { Reads (table scene) depth (bind (context scene) (value.now ∷ [])) term.now }
    ensures { Tells result (TruthOf (Evaluates (table scene.entry) depth) (bind (context scene.entry) (value.now ∷ [])) term.now) }
{
    let slots = one_more(alloc, scene.slots, value)?;
    eval_truth(alloc, with_slots(scene, &slots), depth, term)
}

/// The set of those members of a set that pass a test.
#[cycle(evaluate)]
pub(crate) fn eval_filter(
    alloc: Global,
    scene: Scene<'_>,
    depth: u32,
    at: Place,
    set: &Term,
    test: &Term,
) -> Result<Value, EvalFault>
    requires set { Reads (table scene) depth (context scene) set.now }
    requires test { ReadsUnder (Reads (table scene) depth) (context scene) 1 test.now }
    ensures { Tells result (Then (MembersOf (Evaluates (table scene.entry) depth) (context scene.entry) set.now) (λ vs. Then (Passing (λ v. TruthOf (Evaluates (table scene.entry) depth) (bind (context scene.entry) (v ∷ [])) test.now) vs) (SetOfAll at))) }
{
    match eval_members(alloc, scene, depth, set) {
        Ok(all) => filtered(alloc, scene, depth, at, test, &all),
        Err(fault) => Err(fault),
    }
}

#[cycle(evaluate)]
fn filtered(
    alloc: Global,
    scene: Scene<'_>,
    depth: u32,
    at: Place,
    test: &Term,
    all: &Value,
) -> Result<Value, EvalFault>
    requires { ReadsUnder (Reads (table scene) depth) (context scene) 1 test.now }
    ensures { Tells result (Then (Passing (λ v. TruthOf (Evaluates (table scene.entry) depth) (bind (context scene.entry) (v ∷ [])) test.now) (items_of all.now)) (SetOfAll at)) }
{
    match passing(alloc, scene, depth, test, all) {
        Ok(values) => set_of(at, values),
        Err(fault) => Err(fault),
    }
}

/// A set that a term means.
#[cycle(evaluate)]
fn eval_members(alloc: Global, scene: Scene<'_>, depth: u32, set: &Term) -> Result<Value, EvalFault>
    requires { Reads (table scene) depth (context scene) set.now }
    ensures values { IfOk result (λ v. MembersOf (Evaluates (table scene.entry) depth) (context scene.entry) set.now (Ok (items_of v))) }
    ensures fault { IfErr result (Stops (MembersOf (Evaluates (table scene.entry) depth) (context scene.entry) set.now)) }
{
    match eval(alloc, scene, depth, set) {
        Ok(all) => set_in(all, set),
        Err(fault) => Err(fault),
    }
}

#[cycle(evaluate)]
fn passing(
    alloc: Global,
    scene: Scene<'_>,
    depth: u32,
    test: &Term,
    all: &Value,
) -> Result<Vec<Value>, EvalFault>
    requires { ReadsUnder (Reads (table scene) depth) (context scene) 1 test.now }
    ensures values { IfOk result (λ vs. Passing (λ v. TruthOf (Evaluates (table scene.entry) depth) (bind (context scene.entry) (v ∷ [])) test.now) (items_of all.now) (Ok vs.items)) }
    ensures fault { IfErr result (Stops (Passing (λ v. TruthOf (Evaluates (table scene.entry) depth) (bind (context scene.entry) (v ∷ [])) test.now) (items_of all.now))) }
{
    let mut values = Vec::new(alloc);
    let members = all.members();
    for member in members {
        match truth_under(alloc, scene, depth, test, member) {
            Ok(passes) => push_if(&mut values, member, passes)?,
            Err(fault) => return Err(fault),
        }
    }
    Ok(values)
}

/// The least member of a set that passes a test.
#[cycle(evaluate)]
pub(crate) fn eval_choose(
    alloc: Global,
    scene: Scene<'_>,
    depth: u32,
    at: Place,
    set: &Term,
    test: &Term,
) -> Result<Value, EvalFault>
    requires set { Reads (table scene) depth (context scene) set.now }
    requires test { ReadsUnder (Reads (table scene) depth) (context scene) 1 test.now }
    ensures { Tells result (Then (MembersOf (Evaluates (table scene.entry) depth) (context scene.entry) set.now) (FirstThat at (λ v. TruthOf (Evaluates (table scene.entry) depth) (bind (context scene.entry) (v ∷ [])) test.now))) }
{
    match eval_members(alloc, scene, depth, set) {
        Ok(all) => chosen(alloc, scene, depth, at, test, &all),
        Err(fault) => Err(fault),
    }
}

#[cycle(evaluate)]
fn chosen(
    alloc: Global,
    scene: Scene<'_>,
    depth: u32,
    at: Place,
    test: &Term,
    all: &Value,
) -> Result<Value, EvalFault>
    requires { ReadsUnder (Reads (table scene) depth) (context scene) 1 test.now }
    ensures { Tells result (FirstThat at (λ v. TruthOf (Evaluates (table scene.entry) depth) (bind (context scene.entry) (v ∷ [])) test.now) (items_of all.now)) }
{
    let members = all.members();
    for member in members {
        match truth_under(alloc, scene, depth, test, member) {
            Ok(true) => return Ok(member.copy()?),
            Ok(false) => {}
            Err(fault) => return Err(fault),
        }
    }
    Err(EvalFault::Refused(EvalKind::NoChoice, at))
}

/// `\A` and `\E`.
#[cycle(evaluate)]
pub(crate) fn eval_quantified(
    alloc: Global,
    scene: Scene<'_>,
    depth: u32,
    quantifier: Quantifier,
    bounds: &Bounds,
    body: &Term,
) -> Result<bool, EvalFault>
    requires bounds { BoundsRead (Reads (table scene) depth) (context scene) bounds.now }
    requires body { ReadsUnder (Reads (table scene) depth) (context scene) (width bounds.now) body.now }
    ensures { Tells result (QuantifiedEvaluates (Evaluates (table scene.entry) depth) (context scene.entry) quantifier bounds.now body.now) }
{
    match eval_bounds(alloc, scene, depth, bounds) {
        Ok(sets) => quantified(alloc, scene, depth, quantifier, &sets, body),
        Err(fault) => Err(fault),
    }
}

/// `\A` and `\E` over these sets.
#[cycle(evaluate)]
fn quantified(
    alloc: Global,
    scene: Scene<'_>,
    depth: u32,
    quantifier: Quantifier,
    sets: &[BoundSet],
    body: &Term,
) -> Result<bool, EvalFault>
    requires { ReadsUnder (Reads (table scene) depth) (context scene) (length (ranges (map bound_members sets.now))) body.now }
    ensures { Tells result (Decided quantifier (λ chosen. TruthOf (Evaluates (table scene.entry) depth) (bind (context scene.entry) chosen) body.now) (combinations (ranges (map bound_members sets.now)))) }
{
    let lists = member_lists(alloc, sets)?;
    match quantifier {
        Quantifier::ForAll => holds_for_all(alloc, scene, depth, &lists, body),
        Quantifier::Exists => holds_for_some(alloc, scene, depth, &lists, body),
    }
}

/// Whether a term is true for all combinations of members: none behind the first for which it is false is asked for.
#[cycle(evaluate)]
fn holds_for_all(
    alloc: Global,
    scene: Scene<'_>,
    depth: u32,
    lists: &[&[Value]],
    body: &Term,
) -> Result<bool, EvalFault>
    requires { ReadsUnder (Reads (table scene) depth) (context scene) (length (map (λ l. l.now) lists.now)) body.now }
    ensures { Tells result (AllTrue (λ chosen. TruthOf (Evaluates (table scene.entry) depth) (bind (context scene.entry) chosen) body.now) (combinations (map (λ l. l.now) lists.now))) }
{
    let mut places = start(alloc, lists)?;
    let mut more = has_combination(lists);
    while more {
        match truth_with(alloc, scene, depth, lists, &places, body) {
            Ok(true) => more = advance(lists, &mut places),
            Ok(false) => return Ok(false),
            Err(fault) => return Err(fault),
        }
    }
    Ok(true)
}

/// Whether a term is true for a combination of members: none behind the first for which it is true is asked for.
#[cycle(evaluate)]
fn holds_for_some(
    alloc: Global,
    scene: Scene<'_>,
    depth: u32,
    lists: &[&[Value]],
    body: &Term,
) -> Result<bool, EvalFault>
    requires { ReadsUnder (Reads (table scene) depth) (context scene) (length (map (λ l. l.now) lists.now)) body.now }
    ensures { Tells result (SomeTrue (λ chosen. TruthOf (Evaluates (table scene.entry) depth) (bind (context scene.entry) chosen) body.now) (combinations (map (λ l. l.now) lists.now))) }
{
    let mut places = start(alloc, lists)?;
    let mut more = has_combination(lists);
    while more {
        match truth_with(alloc, scene, depth, lists, &places, body) {
            Ok(true) => return Ok(true),
            Ok(false) => more = advance(lists, &mut places),
            Err(fault) => return Err(fault),
        }
    }
    Ok(false)
}

/// The truth value of a term where the members at the places are bound.
#[cycle(evaluate)]
fn truth_with(
    alloc: Global,
    scene: Scene<'_>,
    depth: u32,
    lists: &[&[Value]],
    places: &[usize],
    term: &Term,
) -> Result<bool, EvalFault>
    requires within { AreWithin (map (λ l. l.now) lists.now) places.now }
    requires read { Reads (table scene) depth (bind (context scene) (at_places (map (λ l. l.now) lists.now) places.now)) term.now }
    ensures { Tells result (TruthOf (Evaluates (table scene.entry) depth) (bind (context scene.entry) (at_places (map (λ l. l.now) lists.now) places.now)) term.now) }
{
    match eval_with(alloc, scene, depth, lists, places, term) {
        Ok(value) => truth_at(&value, term.at),
        Err(fault) => Err(fault),
    }
}

/// The value of a term where the members at the places are bound.
#[cycle(evaluate)]
fn eval_with(
    alloc: Global,
    scene: Scene<'_>,
    depth: u32,
    lists: &[&[Value]],
    places: &[usize],
    term: &Term,
) -> Result<Value, EvalFault>
    requires within { AreWithin (map (λ l. l.now) lists.now) places.now }
    requires read { Reads (table scene) depth (bind (context scene) (at_places (map (λ l. l.now) lists.now) places.now)) term.now }
    ensures { Tells result (Evaluates (table scene.entry) depth (bind (context scene.entry) (at_places (map (λ l. l.now) lists.now) places.now)) term.now) }
{
    let slots = slots_with(alloc, scene.slots, &*lists, places)?;
    eval(alloc, with_slots(scene, &slots), depth, term)
}

/// The sets that names are bound over: all are evaluated first, and then each must be a set.
#[cycle(evaluate)]
pub fn eval_bounds(
    alloc: Global,
    scene: Scene<'_>,
    depth: u32,
    bounds: &Bounds,
) -> Result<Vec<BoundSet>, EvalFault>
    requires { BoundsRead (Reads (table scene) depth) (context scene) bounds.now }
    ensures values { IfOk result (λ sets. BoundValues (Evaluates (table scene.entry) depth) (context scene.entry) bounds.now (Ok (combinations (ranges (map bound_members sets.items))))) }
    ensures many { IfOk result (λ sets. length (ranges (map bound_members sets.items)) ≡ width bounds.now) }
    ensures fault { IfErr result (Stops (BoundValues (Evaluates (table scene.entry) depth) (context scene.entry) bounds.now)) }
{
    match eval_each_bound(alloc, scene, depth, bounds) {
        Ok(sets) => match expect_sets(&sets) {
            Ok(()) => Ok(sets),
            Err(fault) => Err(fault),
        },
        Err(fault) => Err(fault),
    }
}

/// The values that names are bound over, from left to right.
#[cycle(evaluate)]
fn eval_each_bound(
    alloc: Global,
    scene: Scene<'_>,
    depth: u32,
    bounds: &Bounds,
) -> Result<Vec<BoundSet>, EvalFault>
    requires { BoundsRead (Reads (table scene) depth) (context scene) bounds.now }
    ensures values { IfOk result (λ sets. Each (BoundEvaluates (Evaluates (table scene.entry) depth) (context scene.entry)) (bounds_list bounds.now) (Ok (map bound_value sets.items))) }
    ensures fault { IfErr result (Stops (Each (BoundEvaluates (Evaluates (table scene.entry) depth) (context scene.entry)) (bounds_list bounds.now))) }
{
    let mut sets = Vec::new(alloc);
    for bound in bounds.items() {
        match eval_bound(alloc, scene, depth, bound) {
            Ok(set) => push(&mut sets, set)?,
            Err(fault) => return Err(fault),
        }
    }
    Ok(sets)
}

#[cycle(evaluate)]
fn eval_bound(
    alloc: Global,
    scene: Scene<'_>,
    depth: u32,
    bound: &Bound,
) -> Result<BoundSet, EvalFault>
    requires { Reads (table scene) depth (context scene) bound.now.set }
    ensures values { IfOk result (λ set. BoundEvaluates (Evaluates (table scene.entry) depth) (context scene.entry) (bound_item bound.now) (Ok (bound_value set))) }
    ensures fault { IfErr result (Stops (BoundEvaluates (Evaluates (table scene.entry) depth) (context scene.entry) (bound_item bound.now))) }
{
    match eval(alloc, scene, depth, &bound.set) {
        Ok(value) => Ok(bound_set(bound, value)),
        Err(fault) => Err(fault),
    }
}

/// `{e : x \in S, y \in T}`.
#[cycle(evaluate)]
pub(crate) fn eval_map(
    alloc: Global,
    scene: Scene<'_>,
    depth: u32,
    at: Place,
    term: &Term,
    bounds: &Bounds,
) -> Result<Value, EvalFault>
    requires bounds { BoundsRead (Reads (table scene) depth) (context scene) bounds.now }
    requires term { ReadsUnder (Reads (table scene) depth) (context scene) (width bounds.now) term.now }
    ensures { Tells result (Then (BoundValues (Evaluates (table scene.entry) depth) (context scene.entry) bounds.now) (λ all. Then (Each (λ chosen. Evaluates (table scene.entry) depth (bind (context scene.entry) chosen) term.now) all) (SetOfAll at))) }
{
    match eval_bounds(alloc, scene, depth, bounds) {
        Ok(sets) => mapped(alloc, scene, depth, at, term, &sets),
        Err(fault) => Err(fault),
    }
}

/// The set of the values of a term over these sets.
#[cycle(evaluate)]
fn mapped(
    alloc: Global,
    scene: Scene<'_>,
    depth: u32,
    at: Place,
    term: &Term,
    sets: &[BoundSet],
) -> Result<Value, EvalFault>
    requires { ReadsUnder (Reads (table scene) depth) (context scene) (length (ranges (map bound_members sets.now))) term.now }
    ensures { Tells result (Then (Each (λ chosen. Evaluates (table scene.entry) depth (bind (context scene.entry) chosen) term.now) (combinations (ranges (map bound_members sets.now)))) (SetOfAll at)) }
{
    let lists = member_lists(alloc, sets)?;
    match values_for_each(alloc, scene, depth, &lists, term) {
        Ok(values) => set_of(at, values),
        Err(fault) => Err(fault),
    }
}

/// The values of a term for all combinations of members.
#[cycle(evaluate)]
fn values_for_each(
    alloc: Global,
    scene: Scene<'_>,
    depth: u32,
    lists: &[&[Value]],
    term: &Term,
) -> Result<Vec<Value>, EvalFault>
    requires { ReadsUnder (Reads (table scene) depth) (context scene) (length (map (λ l. l.now) lists.now)) term.now }
    ensures values { IfOk result (λ values. Each (λ chosen. Evaluates (table scene.entry) depth (bind (context scene.entry) chosen) term.now) (combinations (map (λ l. l.now) lists.now)) (Ok values.items)) }
    ensures fault { IfErr result (Stops (Each (λ chosen. Evaluates (table scene.entry) depth (bind (context scene.entry) chosen) term.now) (combinations (map (λ l. l.now) lists.now)))) }
{
    let mut values = Vec::new(alloc);
    let mut places = start(alloc, lists)?;
    let mut more = has_combination(lists);
    while more {
        match eval_with(alloc, scene, depth, lists, &places, term) {
            Ok(value) => push(&mut values, value)?,
            Err(fault) => return Err(fault),
        }
        more = advance(lists, &mut places);
    }
    Ok(values)
}

/// `[x \in S, y \in T |-> e]`.
#[cycle(evaluate)]
pub(crate) fn eval_function(
    alloc: Global,
    scene: Scene<'_>,
    depth: u32,
    at: Place,
    bounds: &Bounds,
    term: &Term,
) -> Result<Value, EvalFault>
    requires bounds { BoundsRead (Reads (table scene) depth) (context scene) bounds.now }
    requires term { ReadsUnder (Reads (table scene) depth) (context scene) (width bounds.now) term.now }
    ensures { Tells result (Then (BoundValues (Evaluates (table scene.entry) depth) (context scene.entry) bounds.now) (λ all. Then (Each (PairOf (Evaluates (table scene.entry) depth) (context scene.entry) at term.now) all) (FunctionOfAll at))) }
{
    match eval_bounds(alloc, scene, depth, bounds) {
        Ok(sets) => function_over(alloc, scene, depth, at, &sets, term),
        Err(fault) => Err(fault),
    }
}

/// The function over these sets.
#[cycle(evaluate)]
fn function_over(
    alloc: Global,
    scene: Scene<'_>,
    depth: u32,
    at: Place,
    sets: &[BoundSet],
    term: &Term,
) -> Result<Value, EvalFault>
    requires { ReadsUnder (Reads (table scene) depth) (context scene) (length (ranges (map bound_members sets.now))) term.now }
    ensures { Tells result (Then (Each (PairOf (Evaluates (table scene.entry) depth) (context scene.entry) at term.now) (combinations (ranges (map bound_members sets.now)))) (FunctionOfAll at)) }
{
    let lists = member_lists(alloc, sets)?;
    match pairs_for_each(alloc, scene, depth, at, &lists, term) {
        Ok(pairs) => function_of(alloc, at, pairs),
        Err(fault) => Err(fault),
    }
}

/// The keys beside the values of a term for all combinations of members.
#[cycle(evaluate)]
fn pairs_for_each(
    alloc: Global,
    scene: Scene<'_>,
    depth: u32,
    at: Place,
    lists: &[&[Value]],
    term: &Term,
) -> Result<Vec<(Value, Value)>, EvalFault>
    requires { ReadsUnder (Reads (table scene) depth) (context scene) (length (map (λ l. l.now) lists.now)) term.now }
    ensures pairs { IfOk result (λ pairs. Each (PairOf (Evaluates (table scene.entry) depth) (context scene.entry) at term.now) (combinations (map (λ l. l.now) lists.now)) (Ok pairs.items)) }
    ensures fault { IfErr result (Stops (Each (PairOf (Evaluates (table scene.entry) depth) (context scene.entry) at term.now) (combinations (map (λ l. l.now) lists.now)))) }
{
    let mut pairs = Vec::new(alloc);
    let mut places = start(alloc, lists)?;
    let mut more = has_combination(lists);
    while more {
        match pair_with(alloc, scene, depth, at, lists, &places, term) {
            Ok(pair) => push(&mut pairs, pair)?,
            Err(fault) => return Err(fault),
        }
        more = advance(lists, &mut places);
    }
    Ok(pairs)
}

/// The key that the members at the places make, beside the value of a term where they are bound.
#[cycle(evaluate)]
fn pair_with(
    alloc: Global,
    scene: Scene<'_>,
    depth: u32,
    at: Place,
    lists: &[&[Value]],
    places: &[usize],
    term: &Term,
) -> Result<(Value, Value), EvalFault>
    requires within { AreWithin (map (λ l. l.now) lists.now) places.now }
    requires read { Reads (table scene) depth (bind (context scene) (at_places (map (λ l. l.now) lists.now) places.now)) term.now }
    ensures { Tells result (PairOf (Evaluates (table scene.entry) depth) (context scene.entry) at term.now (at_places (map (λ l. l.now) lists.now) places.now)) }
{
    match eval_with(alloc, scene, depth, lists, places, term) {
        Ok(value) => match key_with(alloc, at, lists, places) {
            Ok(key) => Ok((key, value)),
            Err(fault) => Err(fault),
        },
        Err(fault) => Err(fault),
    }
}
