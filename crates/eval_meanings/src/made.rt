//! Values that are made of the values of parts, each fault of which stands at the term.

ghost use Rattle.std.specs.Prelude.{◌≡◌, ◌∷◌, [], length};
ghost use Rattle.values_core.specs.FunctionOperations.{GivesSequence};
ghost use Rattle.values_core.specs.Functions.{HasKeyTwice};
ghost use Rattle.values_core.specs.Refusals.{refusal_of};
ghost use Rattle.eval_meanings.specs.Answers.{Tells, placed};
ghost use Rattle.eval_meanings.specs.Functions.{KeyOf};
ghost use Rattle.eval_meanings.specs.Meanings.{FunctionOfAll, SetOfAll};
ghost use Rattle.eval_meanings.specs.Outcomes.{Operated};

use crate::fault::EvalFault;
use base_core::Place;
use std::alloc::Global;
use values_core::{OpFault, Value, ValueFault};

/// The set of these values.
pub fn set_of(at: Place, values: Vec<Value>) -> Result<Value, EvalFault>
    ensures { Tells result (SetOfAll at values.items) }
{
    match Value::make_set(values) {
        Ok(set) => Ok(set),
        Err(fault) => Err(fault_at(at, fault)),
    }
}

/// The sequence of these values.
pub fn sequence_of(alloc: Global, at: Place, values: Vec<Value>) -> Result<Value, EvalFault>
    ensures { Tells result (Operated (GivesSequence values.items) (λ n. at)) }
{
    match Value::sequence(alloc, values) {
        Ok(sequence) => Ok(sequence),
        Err(fault) => Err(fault_at(at, fault)),
    }
}

/// The key that these values make: one is itself, and several are their sequence.
pub fn key_of(alloc: Global, at: Place, values: Vec<Value>) -> Result<Value, EvalFault>
    ensures { Tells result (KeyOf at values.items) }
{
    if values.len() == 1 {
        return Ok(only(values));
    }
    sequence_of(alloc, at, values)
}

/// The function with these pairs, no key of which comes twice.
pub fn function_of(alloc: Global, at: Place, pairs: Vec<(Value, Value)>) -> Result<Value, EvalFault>
    requires { ¬ HasKeyTwice pairs.items }
    ensures { Tells result (FunctionOfAll at pairs.items) }
{
    match Value::make_function(alloc, pairs) {
        Ok(function) => Ok(function),
        Err(fault) => Err(fault_at(at, fault)),
    }
}

/// The one value.
fn only(values: Vec<Value>) -> Value
    requires { length values.items ≡ 1 }
    ensures { values.items ≡ result ∷ [] }
{
    let mut values = values;
    match values.pop() {
        Some(value) => value,
        None => unreachable!(),
    }
}

/// Why there is no such value, at the place of the term.
fn fault_at(at: Place, fault: ValueFault) -> EvalFault
    ensures { result ≡ placed (λ n. at) (refusal_of fault) }
{
    match OpFault::from(fault) {
        OpFault::Refused(kind, _) => EvalFault::Refused(kind, at),
        OpFault::NoMemory => EvalFault::NoMemory,
    }
}
