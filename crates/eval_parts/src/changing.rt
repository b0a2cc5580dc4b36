//! Values at keys, values with one change within them, and what stands behind a primary.

ghost use Rattle.std.specs.Prelude.{◌≡◌, ◌∷◌, [], IfErr, IfOk, Ok, option_copied};
ghost use Rattle.values_core.specs.Data.{string};
ghost use Rattle.values_core.specs.FunctionOperations.{AppliesAt, Excepts};
ghost use Rattle.names_terms.specs.Lists.{steps_list};
ghost use Rattle.names_terms.specs.Terms.{place_of};
ghost use Rattle.names_terms.specs.TermViews.{step_view};
ghost use Rattle.eval_meanings.specs.Answers.{Tells};
ghost use Rattle.eval_meanings.specs.Functions.{steps_place};
ghost use Rattle.eval_meanings.specs.Outcomes.{Gives, Operated, place_in};
ghost use Rattle.eval_parts.specs.Scenes.{Stops, context, table};
ghost use Rattle.eval_parts.specs.ChangePaths.{InsideAt, Rebuilt, primes_in, under, with_prime};

use crate::scene::{Scene, primed};
use base_core::{Place, Text};
use eval_meanings::{EvalFault, expect_function};
use names_terms::{Step, Steps, Term};
use std::alloc::{AllocError, Global};
use values_core::{OpFault, Value};
use values_operations::{apply_at, except_one};

/// A function and the key at which something in it changes.
#[derive(Drop)]
pub struct Layer<'a> {
    pub function: &'a Value,
    pub key: Value,
}

/// The value of a function at a key. The function stands at the place `base`, and what it is applied to at the place `at`.
pub fn applied(function: &Value, key: &Value, at: Place, base: Place) -> Result<Value, EvalFault>
    ensures { Tells result (Operated (AppliesAt function.now key.now) (place_in at (base ∷ []))) }
{
    match apply_at(function, key) {
        Ok(value) => Ok(value.copy()?),
        Err(OpFault::Refused(kind, operand)) => {
            let place = operand_place(at, base, operand);
            Err(EvalFault::Refused(kind, place))
        }
        Err(OpFault::NoMemory) => Err(EvalFault::NoMemory),
    }
}

/// The place of the one operand, or else that of the whole.
fn operand_place(at: Place, base: Place, operand: u8) -> Place
    ensures { result ≡ place_in at (base ∷ []) operand }
{
    if operand == 0 {
        return base;
    }
    at
}

/// The name of a field, as a key.
pub fn text_key(name: &Text) -> Result<Value, AllocError>
    ensures { IfOk result (λ v. v ≡ string name.now) }
{
    let name = name.copy()?;
    Ok(Value::string(name))
}

/// What stands in a function at a key, or none where the key is outside its domain. What is no function is refused at the place of the term.
pub fn inside_at<'a>(
    function: &'a Value,
    key: &Value,
    base: &Term,
) -> Result<Option<&'a Value>, EvalFault>
    ensures inside { IfOk result (λ found. InsideAt (place_of base.now) function.now key.now (Ok (option_copied found))) }
    ensures fault { IfErr result (Stops (InsideAt (place_of base.now) function.now key.now)) }
{
    match expect_function(function, base.at) {
        Ok(()) => Ok(function.apply(key)),
        Err(fault) => Err(fault),
    }
}

/// The outermost of functions that stand within one another, where this value stands in the innermost, which is the last.
pub fn rebuilt(
    alloc: Global,
    at: Place,
    layers: Vec<Layer<'_>>,
    value: Value,
) -> Result<Value, EvalFault>
    ensures { Tells result (Rebuilt at layers.entry.items (Gives value)) }
{
    let mut layers = layers;
    let mut value = value;
    while let Some(layer) = layers.pop() {
        match put(alloc, at, &layer, value) {
            Ok(made) => value = made,
            Err(fault) => return Err(fault),
        }
    }
    Ok(value)
}

/// The same where what stands in the innermost stays as it is.
pub fn rebuilt_same(
    alloc: Global,
    at: Place,
    layers: Vec<Layer<'_>>,
    inner: &Value,
) -> Result<Value, EvalFault>
    ensures { Tells result (Rebuilt at layers.entry.items (Gives inner.now)) }
{
    let same = inner.copy()?;
    rebuilt(alloc, at, layers, same)
}

/// The function with this value at the key.
fn put(alloc: Global, at: Place, layer: &Layer<'_>, value: Value) -> Result<Value, EvalFault>
    ensures { Tells result (Operated (Excepts layer.now.function.now layer.now.key value) (λ n. at)) }
{
    match except_one(alloc, layer.function, &layer.key, value) {
        Ok(value) => Ok(value),
        Err(OpFault::Refused(kind, _)) => Err(EvalFault::Refused(kind, at)),
        Err(OpFault::NoMemory) => Err(EvalFault::NoMemory),
    }
}

/// How many primes are among steps.
pub fn primes_among(steps: &Steps) -> usize
    ensures { result ≡ primes_in (steps_list steps.now) }
{
    let mut primes = 0;
    for item in steps.items() {
        primes += prime_count(&item.step);
    }
    primes
}

/// How many primes a step is.
pub fn prime_count(step: &Step) -> usize
    ensures { result ≡ with_prime (step_view step.now) 0 }
{
    match step {
        Step::Prime => 1,
        Step::Index(_) => 0,
        Step::Field(_) => 0,
    }
}

/// What stands before so many primes reads this.
pub fn before_primes(scene: Scene<'_>, primes: usize) -> Scene<'_>
    ensures table { table result ≡ table scene.entry }
    ensures context { context result ≡ under primes (context scene.entry) }
{
    if primes == 0 {
        return scene;
    }
    primed(scene)
}

/// The place of a primary with steps behind it, where it stands alone.
pub fn place_behind(base: &Term, steps: &Steps) -> Place
    ensures { result ≡ steps_place (place_of base.now) steps.now }
{
    let items = steps.items();
    let count = items.len();
    if count == 0 {
        return base.at;
    }
    items[count - 1].at
}
