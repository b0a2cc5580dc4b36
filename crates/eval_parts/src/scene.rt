//! What a term is evaluated in.

ghost use Rattle.std.specs.Prelude.{◌≡◌, ◌≤◌, ◌++◌, ◌∷◌, [], IfOk, Some, length, map, slice_get, take};
ghost use Rattle.values_core.specs.Data.{Val};
ghost use Rattle.eval_meanings.specs.Answers.{Tells};
ghost use Rattle.eval_meanings.specs.Contexts.{IsAt, IsKnown, primed};
ghost use Rattle.names_terms.specs.declared.operator.Operator.{Operator};
ghost use Rattle.eval_meanings.specs.Reads.{Knows};
ghost use Rattle.eval_parts.specs.Scenes.{context, table, with_slots};

use eval_meanings::EvalFault;
use names_terms::{DefId, Operator, Operators};
use states_core::{Partial, VarId};
use std::alloc::{AllocError, Global};
use values_core::Value;

/// The definitions of the specification, the values of the slots, the state in which variables are read, and the one in which primed variables
/// are read.
#[derive(Clone, Copy, Drop)]
pub struct Scene<'a> {
    pub operators: &'a Operators,
    pub slots: &'a [&'a Value],
    pub state: &'a Partial,
    pub next: &'a Partial,
}

/// Under a prime.
pub fn primed(scene: Scene<'_>) -> Scene<'_>
    ensures table { table result ≡ table scene.entry }
    ensures context { context result ≡ primed (context scene.entry) }
{
    Scene {
        operators: scene.operators,
        slots: scene.slots,
        state: scene.next,
        next: scene.next,
    }
}

/// The same with other slots.
pub fn with_slots<'a>(scene: Scene<'a>, slots: &'a [&'a Value]) -> Scene<'a>
    ensures table { table result ≡ table scene.entry }
    ensures context { context result ≡ with_slots (context scene.entry) (map (λ v. v.now) slots.entry.now) }
{
    Scene {
        operators: scene.operators,
        slots,
        state: scene.state,
        next: scene.next,
    }
}

/// The first slots, so many of them, and values behind them.
pub fn slots_and<'a>(
    alloc: Global,
    slots: &[&'a Value],
    kept: usize,
    values: &'a [Value],
) -> Result<Vec<&'a Value>, AllocError>
    requires { kept ≤ length slots.now }
    ensures { IfOk result (λ all. map (λ v. v.now) all.items ≡ take kept (map (λ v. v.now) slots.now) ++ values.now) }
{
    let mut all = first_slots(alloc, slots, kept, values.len())?;
    for value in values {
        all.push(value)?;
    }
    Ok(all)
}

/// The slots, and a value behind them.
pub fn one_more<'a>(
    alloc: Global,
    slots: &[&'a Value],
    value: &'a Value,
) -> Result<Vec<&'a Value>, AllocError>
    ensures { IfOk result (λ all. map (λ v. v.now) all.items ≡ map (λ v. v.now) slots.now ++ value.now ∷ []) }
{
    let mut all = first_slots(alloc, slots, slots.len(), 1)?;
    all.push(value)?;
    Ok(all)
}

/// The first slots, so many of them, with room for so many more.
pub fn first_slots<'a>(
    alloc: Global,
    slots: &[&'a Value],
    kept: usize,
    more: usize,
) -> Result<Vec<&'a Value>, AllocError>
    requires { kept ≤ length slots.now }
    ensures { IfOk result (λ all. all.items ≡ take kept slots.now) }
{
    let mut all = Vec::with_capacity(alloc, kept.saturating_add(more))?;
    for index in 0..kept {
        all.push(slots[index])?;
    }
    Ok(all)
}

/// The value of a variable.
pub fn variable(state: &Partial, number: VarId) -> Result<Value, EvalFault>
    requires { Knows state.now number.0 }
    ensures { Tells result (IsKnown state.now number.0) }
{
    match state.get(number) {
        Some(value) => Ok(value.copy()?),
        None => unreachable!(),
    }
}

/// The value of a slot.
pub fn slot(slots: &[&Value], index: usize) -> Result<Value, EvalFault>
    requires { (v : Val) × (slice_get (map (λ v. v.now) slots.now) index ≡ Some v) }
    ensures { Tells result (IsAt (map (λ v. v.now) slots.now) index) }
{
    Ok(slots[index].copy()?)
}

/// The definition of that number.
pub fn definition(operators: &Operators, number: DefId) -> &Operator
    requires { (o : Operator) × (slice_get operators.now number.0 ≡ Some o) }
    ensures { slice_get operators.now number.0 ≡ Some result.now }
{
    match operators.get(number.0) {
        Some(operator) => operator,
        None => unreachable!(),
    }
}
