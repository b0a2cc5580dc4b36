//! Steps into values, EXCEPT, primes, and what stays the same.

ghost use Rattle.std.specs.Prelude.{◌≡◌, [], ◌∷◌, length, map, ◌≤◌};
ghost use Rattle.eval_meanings.specs.Answers.{Tells};
ghost use Rattle.eval_meanings.specs.Contexts.{bind, within};
ghost use Rattle.eval_meanings.specs.Evaluates.{Describes, Evaluates};
ghost use Rattle.eval_meanings.specs.Meanings.{ChainEvaluates};
ghost use Rattle.eval_meanings.specs.Outcomes.{AllTrue, Each, Operated, Then, place_in, Decides};
ghost use Rattle.eval_meanings.specs.Unchanged.{HoldsAndChanges, TruthOf, changed_of, prime_of, HoldsOrStutters, IsUnchanged, MeansUnchanged, StaysSame, unchanged_of};
ghost use Rattle.reading_trees.specs.declared.operators.InfixOperator.TheVariants.{NotEqual};
ghost use Rattle.names_terms.specs.Lists.{terms_list, changes_list, steps_list};
ghost use Rattle.names_terms.specs.Terms.{place_of, MoreSteps};
ghost use Rattle.names_terms.specs.TermViews.{step_item, step_view};
ghost use Rattle.eval_meanings.specs.Reads.{Reads, ReadsEach, ReadsUnder, ChangesRead, PathReads, RecursionReads, StepsRead, MeansUnchangedReads, SameReads, UnchangedReads};
ghost use Rattle.eval_parts.specs.Scenes.{context, table};
ghost use Rattle.eval_meanings.specs.Functions.{AllChanged, AtStep, Changed, KeyOf, StepKey, StepsEvaluate, steps_place};
ghost use Rattle.eval_meanings.specs.Recursion.{applied_by};
ghost use Rattle.values_core.specs.FunctionOperations.{AppliesAt};
ghost use Rattle.eval_parts.specs.ChangePaths.{HasKey, StepMakes, StepReads, StepsMake, StepsMakeReads, primes_in, under};

use crate::evaluate::{eval, eval_each, eval_truth};
use crate::operations::eval_next;
use crate::recursion::{eval_first, eval_recursion};
use base_core::Place;
use eval_meanings::{EvalFault, key_of, truth_at};
use eval_parts::{
    Layer, Scene, applied, applied_by, before_primes, behind, first_applied, inside_at, one_more,
    only_term, place_at, place_behind, prime_count, primed, primes_among, push, rebuilt,
    rebuilt_same, text_key, variable_stays, with_slots, within,
};
use names_terms::{Changes, Field, Step, StepAt, Steps, Term, TermNode, Terms};
use reading_trees::InfixOperator;
use std::alloc::Global;
use values_core::{EvalKind, Value};

/// `<<A>>_v`: the action, and then that `v` changed.
#[cycle(evaluate)]
pub(crate) fn holds_and_changes(
    alloc: Global,
    scene: Scene<'_>,
    depth: u32,
    at: Place,
    action: &Term,
    subscript: &Term,
) -> Result<bool, EvalFault>
    requires action { Reads (table scene) depth (context scene) action.now }
    requires subscript { Reads (table scene) depth (context scene) (changed_of at subscript.now) }
    ensures { Tells result (HoldsAndChanges (Evaluates (table scene.entry) depth) (context scene.entry) at action.now subscript.now) }
{
    match eval_truth(alloc, scene, depth, action) {
        Ok(true) => is_changed(alloc, scene, depth, at, subscript),
        Ok(false) => Ok(false),
        Err(fault) => Err(fault),
    }
}

/// The truth value of `v' # v`, as the last of a list.
#[cycle(evaluate)]
fn is_changed(
    alloc: Global,
    scene: Scene<'_>,
    depth: u32,
    at: Place,
    term: &Term,
) -> Result<bool, EvalFault>
    requires { Reads (table scene) depth (context scene) (changed_of at term.now) }
    ensures { Tells result (AllTrue (TruthOf (Evaluates (table scene.entry) depth) (context scene.entry)) (changed_of at term.now ∷ [])) }
{
    match eval_changed(alloc, scene, depth, at, term) {
        Ok(value) => truth_at(&value, at),
        Err(fault) => Err(fault),
    }
}

/// `v' # v`, as a term of its own.
#[cycle(evaluate)]
pub fn eval_changed(
    alloc: Global,
    scene: Scene<'_>,
    depth: u32,
    at: Place,
    term: &Term,
) -> Result<Value, EvalFault>
    requires { Reads (table scene) depth (context scene) (changed_of at term.now) }
    ensures { Tells result (Evaluates (table scene.entry) depth (context scene.entry) (changed_of at term.now)) }
{
    if depth == 0 {
        return Err(EvalFault::Refused(EvalKind::Nested, at));
    }
    eval_difference(alloc, scene, depth - 1, at, term)
}

/// What `v' # v` comes to, of which the parts have `depth` evaluations.
#[cycle(evaluate)]
fn eval_difference(
    alloc: Global,
    scene: Scene<'_>,
    depth: u32,
    at: Place,
    term: &Term,
) -> Result<Value, EvalFault>
    requires next { Reads (table scene) depth (context scene) (prime_of at term.now) }
    requires now { Reads (table scene) depth (context scene) term.now }
    ensures { Tells result (Then (Evaluates (table scene.entry) depth (context scene.entry) (prime_of at term.now)) (λ v. ChainEvaluates (Evaluates (table scene.entry) depth) (context scene.entry) NotEqual at v ((at, term.now) ∷ []))) }
{
    match eval_prime(alloc, scene, depth, at, term) {
        Ok(value) => {
            eval_next(
                alloc,
                scene,
                depth,
                InfixOperator::NotEqual,
                &value,
                at,
                at,
                term,
            )
        }
        Err(fault) => Err(fault),
    }
}

/// `v'`, as a term of its own.
#[cycle(evaluate)]
fn eval_prime(
    alloc: Global,
    scene: Scene<'_>,
    depth: u32,
    at: Place,
    term: &Term,
) -> Result<Value, EvalFault>
    requires { Reads (table scene) depth (context scene) (prime_of at term.now) }
    ensures { Tells result (Evaluates (table scene.entry) depth (context scene.entry) (prime_of at term.now)) }
{
    if depth == 0 {
        return Err(EvalFault::Refused(EvalKind::Nested, at));
    }
    eval(alloc, primed(scene), depth - 1, term)
}

/// `[f EXCEPT ![a].h = e, ..]`.
#[cycle(evaluate)]
pub(crate) fn eval_except(
    alloc: Global,
    scene: Scene<'_>,
    depth: u32,
    at: Place,
    base: &Term,
    changes: &Changes,
) -> Result<Value, EvalFault>
    requires base { Reads (table scene) depth (context scene) base.now }
    requires changes { ChangesRead (Reads (table scene) depth) (context scene) (changes_list changes.now) }
    ensures { Tells result (Then (Evaluates (table scene.entry) depth (context scene.entry) base.now) (AllChanged (Evaluates (table scene.entry) depth) (context scene.entry) at (place_of base.now) (changes_list changes.now))) }
{
    match eval(alloc, scene, depth, base) {
        Ok(value) => all_changed(alloc, scene, depth, at, base, changes, value),
        Err(fault) => Err(fault),
    }
}

/// A value, which is what the term `base` means, with all changes, one after another.
#[cycle(evaluate)]
fn all_changed(
    alloc: Global,
    scene: Scene<'_>,
    depth: u32,
    at: Place,
    base: &Term,
    changes: &Changes,
    value: Value,
) -> Result<Value, EvalFault>
    requires { ChangesRead (Reads (table scene) depth) (context scene) (changes_list changes.now) }
    ensures { Tells result (AllChanged (Evaluates (table scene.entry) depth) (context scene.entry) at (place_of base.now) (changes_list changes.now) value) }
{
    let mut value = value;
    for change in changes.items() {
        match changed(
            alloc,
            scene,
            depth,
            at,
            base,
            &change.path,
            &change.value,
            &value,
        ) {
            Ok(made) => value = made,
            Err(fault) => return Err(fault),
        }
    }
    Ok(value)
}

/// A value with one change: at the end of the path stands the new value. Where a key of the path is outside the domain nothing changes there.
#[cycle(evaluate)]
fn changed(
    alloc: Global,
    scene: Scene<'_>,
    depth: u32,
    at: Place,
    base: &Term,
    path: &Steps,
    new: &Term,
    value: &Value,
) -> Result<Value, EvalFault>
    requires path { PathReads (Reads (table scene) depth) (context scene) (map (λ s. s.1) (steps_list path.now)) }
    requires new { ReadsUnder (Reads (table scene) depth) (context scene) 1 new.now }
    ensures { Tells result (Changed (Evaluates (table scene.entry) depth) (context scene.entry) at (place_of base.now) (map (λ s. s.1) (steps_list path.now)) new.now value.now) }
{
    let mut layers = Vec::new(alloc);
    let mut inner = value;
    for item in path.items() {
        match step_key(alloc, scene, depth, at, &item.step) {
            Ok(key) => match inside_at(inner, &key, base) {
                Ok(Some(inside)) => {
                    let layer = Layer {
                        function: inner,
                        key,
                    };
                    push(&mut layers, layer)?;
                    inner = inside;
                }
                Ok(None) => return rebuilt_same(alloc, at, layers, inner),
                Err(fault) => return Err(fault),
            },
            Err(fault) => return Err(fault),
        }
    }
    match eval_new(alloc, scene, depth, new, inner) {
        Ok(made) => rebuilt(alloc, at, layers, made),
        Err(fault) => Err(fault),
    }
}

/// The new value of a change, which sees the old one as the innermost bound name. A value that stands there itself sees none.
#[cycle(evaluate)]
fn eval_new(
    alloc: Global,
    scene: Scene<'_>,
    depth: u32,
    new: &Term,
    old: &Value,
) -> Result<Value, EvalFault>
    requires { Reads (table scene) depth (bind (context scene) (old.now ∷ [])) new.now }
    ensures { Tells result (Evaluates (table scene.entry) depth (bind (context scene.entry) (old.now ∷ [])) new.now) }
{
    match &*new.node {
        TermNode::Known(_) => eval(alloc, scene, depth, new),
        _ => eval_with(alloc, scene, depth, new, old),
    }
}

/// The value of a term that may name the old value, which is the innermost bound name.
#[cycle(evaluate)]
fn eval_with(
    alloc: Global,
    scene: Scene<'_>,
    depth: u32,
    new: &Term,
    old: &Value,
) -> Result<Value, EvalFault>
    requires { Reads (table scene) depth (bind (context scene) (old.now ∷ [])) new.now }
    ensures { Tells result (Evaluates (table scene.entry) depth (bind (context scene.entry) (old.now ∷ [])) new.now) }
{
    let slots = one_more(alloc, scene.slots, old)?;
    eval(alloc, with_slots(scene, &slots), depth, new)
}

/// The key that a step asks for.
#[cycle(evaluate)]
pub(crate) fn step_key(
    alloc: Global,
    scene: Scene<'_>,
    depth: u32,
    at: Place,
    step: &Step,
) -> Result<Value, EvalFault>
    requires key { HasKey (step_view step.now) }
    requires read { StepReads (Reads (table scene) depth) (context scene) (step_view step.now) }
    ensures { Tells result (StepKey (Evaluates (table scene.entry) depth) (context scene.entry) at (step_view step.now)) }
{
    match step {
        Step::Index(items) => eval_key(alloc, scene, depth, at, items),
        Step::Field(name) => Ok(text_key(name)?),
        Step::Prime => unreachable!(),
    }
}

/// The key that terms make. For one term no list is made.
#[cycle(evaluate)]
fn eval_key(
    alloc: Global,
    scene: Scene<'_>,
    depth: u32,
    at: Place,
    items: &Terms,
) -> Result<Value, EvalFault>
    requires { ReadsEach (Reads (table scene) depth) (context scene) (terms_list items.now) }
    ensures { Tells result (Then (Each (Evaluates (table scene.entry) depth (context scene.entry)) (terms_list items.now)) (KeyOf at)) }
{
    if items.len() == 1 {
        return eval(alloc, scene, depth, only_term(items));
    }
    match eval_each(alloc, scene, depth, items) {
        Ok(values) => key_of(alloc, at, values),
        Err(fault) => Err(fault),
    }
}

/// `f[x]`, `r.h` and `e'`.
#[cycle(evaluate)]
pub(crate) fn eval_postfix(
    alloc: Global,
    scene: Scene<'_>,
    depth: u32,
    at: Place,
    base: &Term,
    steps: &Steps,
    last: &Step,
) -> Result<Value, EvalFault>
    requires { StepsRead (table scene) (Reads (table scene) depth) (context scene) base.now (MoreSteps steps.now at (step_view last.now)) }
    ensures { Tells result (StepsEvaluate (table scene.entry) (Evaluates (table scene.entry) depth) (Describes (table scene.entry) depth) (context scene.entry) base.now (MoreSteps steps.now at (step_view last.now))) }
{
    match last {
        Step::Prime => eval_steps(alloc, primed(scene), depth, base, steps),
        Step::Index(_) => eval_last(alloc, scene, depth, at, base, steps, last),
        Step::Field(_) => eval_last(alloc, scene, depth, at, base, steps, last),
    }
}

/// What the last step, which is no prime, makes of what stands before it: a function that uses itself is not listed.
#[cycle(evaluate)]
fn eval_last(
    alloc: Global,
    scene: Scene<'_>,
    depth: u32,
    at: Place,
    base: &Term,
    steps: &Steps,
    last: &Step,
) -> Result<Value, EvalFault>
    requires key { HasKey (step_view last.now) }
    requires steps { StepsRead (table scene) (Reads (table scene) depth) (context scene) base.now steps.now }
    requires last { StepReads (Reads (table scene) depth) (context scene) (step_view last.now) }
    requires function { RecursionReads (Reads (table scene) depth) (context scene) (applied_by (table scene) base.now steps.now (step_view last.now)) }
    ensures { Tells result (AtStep (Evaluates (table scene.entry) depth) (Describes (table scene.entry) depth) (context scene.entry) at (steps_place (place_of base.now) steps.now) (step_view last.now) (applied_by (table scene.entry) base.now steps.now (step_view last.now)) (StepsEvaluate (table scene.entry) (Evaluates (table scene.entry) depth) (Describes (table scene.entry) depth) (context scene.entry) base.now steps.now)) }
{
    match applied_by(scene.operators, base, steps, last) {
        Some(function) => eval_recursion(alloc, scene, depth, at, function, last),
        None => eval_then(alloc, scene, depth, at, base, steps, last),
    }
}

/// The value of what stands before the last step, applied to the key of the step.
#[cycle(evaluate)]
fn eval_then(
    alloc: Global,
    scene: Scene<'_>,
    depth: u32,
    at: Place,
    base: &Term,
    steps: &Steps,
    last: &Step,
) -> Result<Value, EvalFault>
    requires key { HasKey (step_view last.now) }
    requires steps { StepsRead (table scene) (Reads (table scene) depth) (context scene) base.now steps.now }
    requires last { StepReads (Reads (table scene) depth) (context scene) (step_view last.now) }
    ensures { Tells result (Then (StepsEvaluate (table scene.entry) (Evaluates (table scene.entry) depth) (Describes (table scene.entry) depth) (context scene.entry) base.now steps.now) (λ f. Then (StepKey (Evaluates (table scene.entry) depth) (context scene.entry) at (step_view last.now)) (λ key. Operated (AppliesAt f key) (place_in at (steps_place (place_of base.now) steps.now ∷ []))))) }
{
    match eval_steps(alloc, scene, depth, base, steps) {
        Ok(function) => {
            let place = place_behind(base, steps);
            eval_applied(alloc, scene, depth, place, at, last, &function)
        }
        Err(fault) => Err(fault),
    }
}

/// A function, which stands at the place `place`, at the key that a step asks for.
#[cycle(evaluate)]
fn eval_applied(
    alloc: Global,
    scene: Scene<'_>,
    depth: u32,
    place: Place,
    at: Place,
    step: &Step,
    function: &Value,
) -> Result<Value, EvalFault>
    requires key { HasKey (step_view step.now) }
    requires read { StepReads (Reads (table scene) depth) (context scene) (step_view step.now) }
    ensures { Tells result (Then (StepKey (Evaluates (table scene.entry) depth) (context scene.entry) at (step_view step.now)) (λ key. Operated (AppliesAt function.now key) (place_in at (place ∷ [])))) }
{
    match step_key(alloc, scene, depth, at, step) {
        Ok(key) => applied(function, &key, at, place),
        Err(fault) => Err(fault),
    }
}

/// The value behind all steps. What stands before a prime is read in the next state.
#[cycle(evaluate)]
fn eval_steps(
    alloc: Global,
    scene: Scene<'_>,
    depth: u32,
    base: &Term,
    steps: &Steps,
) -> Result<Value, EvalFault>
    requires { StepsRead (table scene) (Reads (table scene) depth) (context scene) base.now steps.now }
    ensures { Tells result (StepsEvaluate (table scene.entry) (Evaluates (table scene.entry) depth) (Describes (table scene.entry) depth) (context scene.entry) base.now steps.now) }
{
    let primes = primes_among(steps);
    let items = steps.items();
    match first_applied(scene.operators, base, items) {
        Some(function) => eval_first(alloc, scene, depth, function, items, primes),
        None => eval_base(alloc, scene, depth, base, items, primes),
    }
}

/// The value behind steps, where no function that uses itself has its key of them.
#[cycle(evaluate)]
fn eval_base(
    alloc: Global,
    scene: Scene<'_>,
    depth: u32,
    base: &Term,
    steps: &[StepAt],
    primes: usize,
) -> Result<Value, EvalFault>
    requires primes { primes ≡ primes_in (map step_item steps.now) }
    requires base { Reads (table scene) depth (under (primes_in (map step_item steps.now)) (context scene)) base.now }
    requires read { StepsMakeReads (Reads (table scene) depth) (context scene) (map step_item steps.now) }
    ensures { Tells result (Then (Evaluates (table scene.entry) depth (under (primes_in (map step_item steps.now)) (context scene.entry)) base.now) (StepsMake (Evaluates (table scene.entry) depth) (context scene.entry) (place_of base.now) (map step_item steps.now))) }
{
    match eval(alloc, before_primes(scene, primes), depth, base) {
        Ok(value) => {
            let place = place_at(base);
            eval_behind(alloc, scene, depth, place, steps, primes, value)
        }
        Err(fault) => Err(fault),
    }
}

/// What steps, among which are so many primes, make of a value that stands at the place `place`.
#[cycle(evaluate)]
pub(crate) fn eval_behind(
    alloc: Global,
    scene: Scene<'_>,
    depth: u32,
    place: Place,
    steps: &[StepAt],
    primes: usize,
    value: Value,
) -> Result<Value, EvalFault>
    requires primes { primes ≡ primes_in (map step_item steps.now) }
    requires read { StepsMakeReads (Reads (table scene) depth) (context scene) (map step_item steps.now) }
    ensures { Tells result (StepsMake (Evaluates (table scene.entry) depth) (context scene.entry) place (map step_item steps.now) value) }
{
    let mut primes = primes;
    let mut place = place;
    let mut value = value;
    for item in steps {
        primes -= prime_count(&item.step);
        let around = before_primes(scene, primes);
        match eval_step(alloc, around, depth, place, item.at, &item.step, value) {
            Ok(made) => value = made,
            Err(fault) => return Err(fault),
        }
        place = item.at;
    }
    Ok(value)
}

/// What a step makes of the value before it, which stands at the place `place`.
#[cycle(evaluate)]
fn eval_step(
    alloc: Global,
    scene: Scene<'_>,
    depth: u32,
    place: Place,
    at: Place,
    step: &Step,
    value: Value,
) -> Result<Value, EvalFault>
    requires { StepReads (Reads (table scene) depth) (context scene) (step_view step.now) }
    ensures { Tells result (StepMakes (Evaluates (table scene.entry) depth) (context scene.entry) place at (step_view step.now) value) }
{
    match step {
        Step::Prime => Ok(value),
        Step::Index(_) => eval_applied(alloc, scene, depth, place, at, step, &value),
        Step::Field(_) => eval_applied(alloc, scene, depth, place, at, step, &value),
    }
}

/// `UNCHANGED e`: of a variable that it stays the same, of a tuple that each part is unchanged, and of anything else that its value stays the
/// same.
#[cycle(evaluate)]
pub(crate) fn is_unchanged(
    alloc: Global,
    scene: Scene<'_>,
    depth: u32,
    at: Place,
    term: &Term,
) -> Result<bool, EvalFault>
    requires { UnchangedReads (table scene) (Reads (table scene) depth) (context scene) at term.now }
    ensures { Tells result (IsUnchanged (table scene.entry) (Evaluates (table scene.entry) depth) (context scene.entry) at term.now) }
{
    let (kept, found) = behind(scene, term);
    is_unchanged_behind(alloc, scene, depth, at, term, kept, found)
}

/// The same by what stands behind the term, where so many slots are in scope.
#[cycle(evaluate)]
fn is_unchanged_behind(
    alloc: Global,
    scene: Scene<'_>,
    depth: u32,
    at: Place,
    term: &Term,
    kept: usize,
    found: &Term,
) -> Result<bool, EvalFault>
    requires kept { kept ≤ length (context scene).slots }
    requires read { MeansUnchangedReads (Reads (table scene) depth) (context scene) at term.now (within kept (context scene)) found.now }
    ensures { Tells result (MeansUnchanged (Evaluates (table scene.entry) depth) (context scene.entry) at term.now (within kept (context scene.entry)) found.now) }
{
    match &*found.node {
        TermNode::Variable(number) => variable_stays(scene, depth, at, *number),
        TermNode::Tuple(items) => { are_unchanged(alloc, within(scene, kept), depth, at, items) }
        _ => stays_same(alloc, scene, depth, at, term),
    }
}

/// Whether each of the terms is unchanged, up to the first that is not.
#[cycle(evaluate)]
fn are_unchanged(
    alloc: Global,
    scene: Scene<'_>,
    depth: u32,
    at: Place,
    terms: &Terms,
) -> Result<bool, EvalFault>
    requires { ReadsEach (Reads (table scene) depth) (context scene) (map (unchanged_of at) (terms_list terms.now)) }
    ensures { Tells result (AllTrue (λ item. TruthOf (Evaluates (table scene.entry) depth) (context scene.entry) (unchanged_of at item)) (terms_list terms.now)) }
{
    for term in terms.items() {
        match unchanged_below(alloc, scene, depth, at, term) {
            Ok(true) => {}
            Ok(false) => return Ok(false),
            Err(fault) => return Err(fault),
        }
    }
    Ok(true)
}

/// `UNCHANGED e`, as a term of its own.
#[cycle(evaluate)]
fn unchanged_below(
    alloc: Global,
    scene: Scene<'_>,
    depth: u32,
    at: Place,
    term: &Term,
) -> Result<bool, EvalFault>
    requires { Reads (table scene) depth (context scene) (unchanged_of at term.now) }
    ensures { Tells result (TruthOf (Evaluates (table scene.entry) depth) (context scene.entry) (unchanged_of at term.now)) }
{
    if depth == 0 {
        return Err(EvalFault::Refused(EvalKind::Nested, at));
    }
    is_unchanged(alloc, scene, depth - 1, at, term)
}

/// `e' = e`: first `e'`, then `e`.
#[cycle(evaluate)]
pub fn stays_same(
    alloc: Global,
    scene: Scene<'_>,
    depth: u32,
    at: Place,
    term: &Term,
) -> Result<bool, EvalFault>
    requires { SameReads (Reads (table scene) depth) (context scene) at term.now }
    ensures { Tells result (StaysSame (Evaluates (table scene.entry) depth) (context scene.entry) at term.now) }
{
    match eval_prime(alloc, scene, depth, at, term) {
        Ok(next) => is_still(alloc, scene, depth, term, &next),
        Err(fault) => Err(fault),
    }
}

/// Whether the term has this value.
#[cycle(evaluate)]
fn is_still(
    alloc: Global,
    scene: Scene<'_>,
    depth: u32,
    term: &Term,
    next: &Value,
) -> Result<bool, EvalFault>
    requires { Reads (table scene) depth (context scene) term.now }
    ensures { Tells result (Then (Evaluates (table scene.entry) depth (context scene.entry) term.now) (λ w. Decides (next.now ≡ w))) }
{
    match eval(alloc, scene, depth, term) {
        Ok(now) => Ok(*next == now),
        Err(fault) => Err(fault),
    }
}

/// `[A]_v`: the action, or else that `v` is unchanged.
#[cycle(evaluate)]
pub(crate) fn holds_or_stutters(
    alloc: Global,
    scene: Scene<'_>,
    depth: u32,
    at: Place,
    action: &Term,
    subscript: &Term,
) -> Result<bool, EvalFault>
    requires action { Reads (table scene) depth (context scene) action.now }
    requires subscript { Reads (table scene) depth (context scene) (unchanged_of at subscript.now) }
    ensures { Tells result (HoldsOrStutters (Evaluates (table scene.entry) depth) (context scene.entry) at action.now subscript.now) }
{
    match eval_truth(alloc, scene, depth, action) {
        Ok(true) => Ok(true),
        Ok(false) => unchanged_below(alloc, scene, depth, at, subscript),
        Err(fault) => Err(fault),
    }
}
