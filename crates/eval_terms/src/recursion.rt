//! Functions that use themselves, at a key.

ghost use Rattle.std.specs.Prelude.{◌≡◌, ◌<◌, IfOk, Some, length, map};
ghost use Rattle.values_core.specs.declared.fault.EvalKind.TheVariants.{OutsideDomain};
ghost use Rattle.values_sets.specs.Membership.{Belongs};
ghost use Rattle.values_sets.specs.Soundness.{IsSound};
ghost use Rattle.names_terms.specs.Lists.{bounds_list};
ghost use Rattle.names_terms.specs.Terms.{width};
ghost use Rattle.names_terms.specs.TermViews.{step_item, step_view};
ghost use Rattle.eval_meanings.specs.Answers.{Tells};
ghost use Rattle.eval_meanings.specs.Contexts.{bind, within};
ghost use Rattle.eval_meanings.specs.Evaluates.{Describes, Evaluates};
ghost use Rattle.eval_meanings.specs.Functions.{StepKey};
ghost use Rattle.eval_meanings.specs.Outcomes.{Either, Fails, Then};
ghost use Rattle.eval_meanings.specs.Recursion.{KeysDescribed, RecursionEvaluates, names_at};
ghost use Rattle.eval_meanings.specs.Sets.{IsIn};
ghost use Rattle.eval_meanings.specs.Reads.{Reads, ReadsEach, ReadsUnder, RecursionReads};
ghost use Rattle.eval_parts.specs.ChangePaths.{HasKey, StepReads, primes_in};
ghost use Rattle.eval_parts.specs.Recursions.{FirstMakes, FirstReads, HasNames, IsKey, seen};
ghost use Rattle.eval_parts.specs.Scenes.{context, table};

use crate::describing::describe_parts;
use crate::evaluate::{describe_set, eval};
use crate::stepping::{eval_behind, step_key};
use base_core::Place;
use eval_meanings::EvalFault;
use eval_parts::{
    Recursion, Scene, before_primes, product_of, sets_of_names, slots_at, with_slots, within,
};
use names_terms::{Step, StepAt, Term};
use std::alloc::Global;
use values_core::{EvalKind, Value};
use values_sets::{Described, member};

/// What steps make of a function that uses itself, to which the first of them gives its key; among them are so many primes.
#[cycle(evaluate)]
pub(crate) fn eval_first(
    alloc: Global,
    scene: Scene<'_>,
    depth: u32,
    function: Recursion<'_>,
    steps: &[StepAt],
    primes: usize,
) -> Result<Value, EvalFault>
    requires some { 0 < length steps.now }
    requires primes { primes ≡ primes_in (map step_item steps.now) }
    requires read { FirstReads (Reads (table scene) depth) (context scene) (seen function) (map step_item steps.now) }
    ensures { Tells result (FirstMakes (Evaluates (table scene.entry) depth) (Describes (table scene.entry) depth) (context scene.entry) (seen function.entry) (map step_item steps.now)) }
{
    let around = before_primes(scene, primes);
    let first = &steps[0];
    match eval_recursion(alloc, around, depth, first.at, function, &first.step) {
        Ok(value) => eval_behind(alloc, scene, depth, first.at, &steps[1..], primes, value),
        Err(fault) => Err(fault),
    }
}

/// The value of a function that uses itself at the key that a step asks for.
#[cycle(evaluate)]
pub(crate) fn eval_recursion(
    alloc: Global,
    scene: Scene<'_>,
    depth: u32,
    at: Place,
    function: Recursion<'_>,
    step: &Step,
) -> Result<Value, EvalFault>
    requires key { HasKey (step_view step.now) }
    requires read { StepReads (Reads (table scene) depth) (context scene) (step_view step.now) }
    requires function { RecursionReads (Reads (table scene) depth) (context scene) (Some (seen function)) }
    ensures { Tells result (Then (StepKey (Evaluates (table scene.entry) depth) (context scene.entry) at (step_view step.now)) (RecursionEvaluates (Evaluates (table scene.entry) depth) (Describes (table scene.entry) depth) (within function.entry.around (context scene.entry)) at (seen function.entry))) }
{
    match step_key(alloc, scene, depth, at, step) {
        Ok(key) => {
            let around = within(scene, function.around);
            eval_at_key(alloc, around, depth, at, function, &key)
        }
        Err(fault) => Err(fault),
    }
}

/// The value of a function that uses itself at a key, in the scope of its definition.
#[cycle(evaluate)]
fn eval_at_key(
    alloc: Global,
    scene: Scene<'_>,
    depth: u32,
    at: Place,
    function: Recursion<'_>,
    key: &Value,
) -> Result<Value, EvalFault>
    requires sets { ReadsEach (Reads (table scene) depth) (context scene) (map (λ b. b.1) (bounds_list function.bounds.now)) }
    requires value { ReadsUnder (Reads (table scene) depth) (context scene) (width function.bounds.now) function.value.now }
    ensures { Tells result (RecursionEvaluates (Evaluates (table scene.entry) depth) (Describes (table scene.entry) depth) (context scene.entry) at (seen function.entry) key.now) }
{
    let sets = sets_of_names(alloc, function.bounds)?;
    match describe_keys(alloc, scene, depth, &sets) {
        Ok(keys) => eval_member(alloc, scene, depth, at, function.value, &sets, keys, key),
        Err(fault) => Err(fault),
    }
}

/// The keys of a function whose names have these sets.
#[cycle(evaluate)]
fn describe_keys(
    alloc: Global,
    scene: Scene<'_>,
    depth: u32,
    sets: &[&Term],
) -> Result<Described, EvalFault>
    requires { ReadsEach (Reads (table scene) depth) (context scene) (map (λ t. t.now) sets.now) }
    ensures fine { Tells result (KeysDescribed (Describes (table scene.entry) depth) (context scene.entry) (map (λ t. t.now) sets.now)) }
    ensures sound { IfOk result IsSound }
{
    let names = sets.len();
    if names == 1 {
        return describe_set(alloc, scene, depth, sets[0]);
    }
    match describe_parts(alloc, scene, depth, sets) {
        Ok(parts) => product_of(alloc, parts),
        Err(fault) => Err(fault),
    }
}

/// The value at a key, where that is one of the keys.
#[cycle(evaluate)]
fn eval_member(
    alloc: Global,
    scene: Scene<'_>,
    depth: u32,
    at: Place,
    value: &Term,
    sets: &[&Term],
    keys: Described,
    key: &Value,
) -> Result<Value, EvalFault>
    requires sound { IsSound keys }
    requires key { Belongs keys key.now → IsKey (map (λ t. t.now) sets.now) key.now }
    requires value { ReadsUnder (Reads (table scene) depth) (context scene) (length sets.now) value.now }
    ensures { Tells result (Then (IsIn keys key.now) (λ b. Either b (Evaluates (table scene.entry) depth (bind (context scene.entry) (names_at (map (λ t. t.now) sets.now) key.now)) value.now) (Fails OutsideDomain at))) }
{
    let is_key = member(&keys, key);
    drop(keys);
    if is_key {
        return eval_named(alloc, scene, depth, value, sets, key);
    }
    Err(EvalFault::Refused(EvalKind::OutsideDomain, at))
}

/// A term under the values that the names of these sets have at a key.
#[cycle(evaluate)]
fn eval_named(
    alloc: Global,
    scene: Scene<'_>,
    depth: u32,
    value: &Term,
    sets: &[&Term],
    key: &Value,
) -> Result<Value, EvalFault>
    requires names { HasNames (map (λ t. t.now) sets.now) key.now }
    requires read { Reads (table scene) depth (bind (context scene) (names_at (map (λ t. t.now) sets.now) key.now)) value.now }
    ensures { Tells result (Evaluates (table scene.entry) depth (bind (context scene.entry) (names_at (map (λ t. t.now) sets.now) key.now)) value.now) }
{
    let slots = slots_at(alloc, scene.slots, sets, key)?;
    eval(alloc, with_slots(scene, &slots), depth, value)
}
