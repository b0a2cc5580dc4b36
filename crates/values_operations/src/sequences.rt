ghost use Rattle.std.specs.Prelude.{◌≡◌, ◌++◌, ◌≤◌, MatchResult, OnOk, [], ◌∷◌, drop, length, take};
ghost use Rattle.std.specs.Result.{result_map_both};
ghost use Rattle.values_core.specs.FunctionOperations.{
  Appends,
  Concatenates,
  GivesHead,
  GivesLength,
  GivesPart,
  GivesSequence,
  GivesTail,
  TakesPart,
};
ghost use Rattle.values_core.specs.Functions.{IsSequence, values_in};
ghost use Rattle.values_core.specs.declared.fault.EvalKind.TheVariants.{NotSequence};
ghost use Rattle.values_core.specs.declared.fault.OpFault.TheVariants.{Refused};

use crate::THE_TERM;
use std::alloc::{AllocError, Global};
use values_core::{EvalKind, OpFault, Value};

/// `Len(s)`.
pub fn len_of(s: &Value) -> Result<Value, OpFault>
    ensures { GivesLength s.now result }
{
    s.is_value();
    expect_sequence(s, 0)?;
    Ok(Value::int(s.len() as i64))
}

/// `Head(s)`, which stands in `s`.
pub fn head<'a>(s: &'a Value) -> Result<&'a Value, OpFault>
    ensures { GivesHead s.now (result_map_both (λ v. v.now) (λ e. e) result) }
{
    expect_sequence(s, 0)?;
    match s.value_at(0) {
        Some(value) => Ok(value),
        None => Err(OpFault::Refused(EvalKind::EmptySequence, THE_TERM)),
    }
}

/// `Tail(s)`.
pub fn tail(alloc: Global, s: &Value) -> Result<Value, OpFault>
    ensures { GivesTail s.now result }
{
    expect_sequence(s, 0)?;
    if s.len() == 0 {
        return Err(OpFault::Refused(EvalKind::EmptySequence, THE_TERM));
    }
    let mut values = Vec::new(alloc);
    push_values(&mut values, s, 1, s.len())?;
    sequence_from(alloc, values)
}

/// `Append(s, v)`.
pub fn append(alloc: Global, s: &Value, v: &Value) -> Result<Value, OpFault>
    ensures { Appends s.now v.now result }
{
    expect_sequence(s, 0)?;
    let mut values = Vec::new(alloc);
    push_values(&mut values, s, 0, s.len())?;
    push_copy(&mut values, v)?;
    sequence_from(alloc, values)
}

/// `s \o t`.
pub fn concat(alloc: Global, s: &Value, t: &Value) -> Result<Value, OpFault>
    ensures { Concatenates s.now t.now result }
{
    expect_sequence(s, 0)?;
    expect_sequence(t, 1)?;
    let mut values = Vec::new(alloc);
    push_values(&mut values, s, 0, s.len())?;
    push_values(&mut values, t, 0, t.len())?;
    sequence_from(alloc, values)
}

/// `SubSeq(s, m, n)`, empty where `m` is above `n`.
pub fn subseq(alloc: Global, s: &Value, m: &Value, n: &Value) -> Result<Value, OpFault>
    ensures { TakesPart s.now m.now n.now result }
{
    expect_sequence(s, 0)?;
    let Some(first) = m.as_int() else {
        return Err(OpFault::Refused(EvalKind::NotInteger, 1));
    };
    let Some(last) = n.as_int() else {
        return Err(OpFault::Refused(EvalKind::NotInteger, 2));
    };
    part(alloc, s, first, last)
}

/// The values from the first place to the last, which count from 1.
fn part(alloc: Global, s: &Value, first: i64, last: i64) -> Result<Value, OpFault>
    requires { IsSequence s.now }
    ensures { GivesPart (values_in s.now) first last result }
{
    s.is_value();
    let mut values = Vec::new(alloc);
    if first > last {
        return sequence_from(alloc, values);
    }
    if first < 1 || last > s.len() as i64 {
        return Err(OpFault::Refused(EvalKind::BadRange, THE_TERM));
    }
    push_values(&mut values, s, (first - 1) as usize, last as usize)?;
    sequence_from(alloc, values)
}

/// That the operand of this number is a sequence.
fn expect_sequence(s: &Value, operand: u8) -> Result<(), OpFault>
    ensures { MatchResult result (λ _. IsSequence s.now) (λ e. (e ≡ Refused NotSequence operand) × ¬ IsSequence s.now) }
{
    if s.is_sequence() {
        Ok(())
    } else {
        Err(OpFault::Refused(EvalKind::NotSequence, operand))
    }
}

/// The sequence of these values.
fn sequence_from(alloc: Global, values: Vec<Value>) -> Result<Value, OpFault>
    ensures { GivesSequence values.items result }
{
    match Value::sequence(alloc, values) {
        Ok(sequence) => Ok(sequence),
        Err(fault) => Err(OpFault::from(fault)),
    }
}

fn push_copy(values: &mut Vec<Value>, v: &Value) -> Result<(), AllocError>
    ensures { OnOk result (values.new.items ≡ values.old.items ++ v.now ∷ []) }
{
    let copy = v.copy()?;
    values.push(copy)?;
    Ok(())
}

/// Adds a copy of the values of a function from one place to below another, which count from 0.
fn push_values(values: &mut Vec<Value>, s: &Value, from: usize, to: usize) -> Result<(), AllocError>
    requires order { from ≤ to }
    requires within { to ≤ length (values_in s.now) }
    ensures { OnOk result (values.new.items ≡ values.old.items ++ drop from (take to (values_in s.now))) }
{
    for i in from..to {
        if let Some(value) = s.value_at(i) {
            push_copy(values, value)?;
        }
    }
    Ok(())
}
