ghost use Rattle.std.specs.Prelude.{◌≡◌, ◌++◌, Contains, IfOk, MatchResult, OnOk, [], ◌∷◌, map};
ghost use Rattle.std.specs.List.Sorted.{IsStrictlySortedBy};
ghost use Rattle.std.specs.Result.{result_map_both};
ghost use Rattle.values_core.specs.FunctionOperations.{
  AppliesAt,
  Excepts,
  GivesFunction,
  GivesValue,
  InExcept,
  ListsDomain,
  MapsOne,
  Merges,
};
ghost use Rattle.values_core.specs.Functions.{HasKeyTwice, InDomain, IsFunction, keys_in};
ghost use Rattle.values_core.specs.Order.{val_cmp};
ghost use Rattle.values_core.specs.declared.fault.EvalKind.TheVariants.{NotFunction};
ghost use Rattle.values_core.specs.declared.fault.OpFault.TheVariants.{Refused};
ghost use Rattle.values_operations.specs.Among.{among};
ghost use Rattle.values_operations.specs.Changes.{outside, replaced};

use crate::THE_TERM;
use crate::sets::set_from;
use std::alloc::{AllocError, Global};
use values_core::{EvalKind, OpFault, Value, ValueKind};

/// `DOMAIN f`.
pub fn domain(alloc: Global, f: &Value) -> Result<Value, OpFault>
    ensures { ListsDomain f.now result }
{
    expect_function(f, 0)?;
    let keys = keys_of(alloc, f)?;
    set_from(keys)
}

/// `f[key]`, which stands in `f`.
pub fn apply_at<'a>(f: &'a Value, key: &Value) -> Result<&'a Value, OpFault>
    ensures { AppliesAt f.now key.now (result_map_both (λ v. v.now) (λ e. e) result) }
{
    expect_function(f, 0)?;
    match f.apply(key) {
        Some(value) => Ok(value),
        None => Err(OpFault::Refused(EvalKind::OutsideDomain, THE_TERM)),
    }
}

/// `key :> value`, the function on the one key.
pub fn single(alloc: Global, key: &Value, value: &Value) -> Result<Value, OpFault>
    ensures { MapsOne key.now value.now result }
{
    let mut pairs = Vec::new(alloc);
    push_pair(&mut pairs, key, value)?;
    function_from(alloc, pairs)
}

/// `f @@ g`, which is `f` where it is defined, and `g` elsewhere.
pub fn merge(alloc: Global, f: &Value, g: &Value) -> Result<Value, OpFault>
    ensures { Merges f.now g.now result }
{
    f.is_value();
    g.is_value();
    expect_function(f, 0)?;
    expect_function(g, 1)?;
    let mut pairs = f.pairs(alloc)?;
    let theirs = g.pairs(alloc)?;
    push_outside(&mut pairs, f, theirs)?;
    function_from(alloc, pairs)
}

/// `[f EXCEPT ![key] = new]`, which is `f` where the key is outside its domain.
pub fn except_one(alloc: Global, f: &Value, key: &Value, new: Value) -> Result<Value, OpFault>
    ensures { Excepts f.now key.now new result }
{
    expect_function(f, 0)?;
    if is_in_domain(f, key) {
        return excepted(alloc, f, key, new);
    }
    kept(f)
}

fn excepted(alloc: Global, f: &Value, key: &Value, new: Value) -> Result<Value, OpFault>
    requires { InDomain key.now f.now }
    ensures { GivesFunction (InExcept f.now key.now new) result }
{
    f.is_value();
    let mut pairs = f.pairs(alloc)?;
    replace(&mut pairs, key, new);
    function_from(alloc, pairs)
}

fn kept(f: &Value) -> Result<Value, OpFault>
    ensures { GivesValue (λ v. v ≡ f.now) result }
{
    Ok(f.copy()?)
}

/// That the operand of this number is a function.
fn expect_function(f: &Value, operand: u8) -> Result<(), OpFault>
    ensures { MatchResult result (λ _. IsFunction f.now) (λ e. (e ≡ Refused NotFunction operand) × ¬ IsFunction f.now) }
{
    match f.kind() {
        ValueKind::Function => Ok(()),
        _ => Err(OpFault::Refused(EvalKind::NotFunction, operand)),
    }
}

/// The function with these pairs, no key of which comes twice.
fn function_from(alloc: Global, pairs: Vec<(Value, Value)>) -> Result<Value, OpFault>
    requires { ¬ HasKeyTwice pairs.items }
    ensures { GivesFunction (λ key v. Contains pairs.items (key, v)) result }
{
    match Value::make_function(alloc, pairs) {
        Ok(function) => Ok(function),
        Err(fault) => Err(OpFault::from(fault)),
    }
}

/// A copy of the keys in order.
fn keys_of(alloc: Global, f: &Value) -> Result<Vec<Value>, AllocError>
    ensures { IfOk result (λ keys. keys.items ≡ keys_in f.now) }
{
    let count = f.len();
    let mut keys = Vec::with_capacity(alloc, count)?;
    for i in 0..count {
        let key = f.key_at(i)?;
        if let Some(key) = key {
            keys.push(key)?;
        }
    }
    Ok(keys)
}

pub(crate) fn push_pair(
    pairs: &mut Vec<(Value, Value)>,
    key: &Value,
    value: &Value,
) -> Result<(), AllocError>
    ensures { OnOk result (pairs.new.items ≡ pairs.old.items ++ (key.now, value.now) ∷ []) }
{
    let key = key.copy()?;
    let value = value.copy()?;
    pairs.push((key, value))?;
    Ok(())
}

/// Adds those of the pairs whose key is not in the domain of the function.
fn push_outside(
    pairs: &mut Vec<(Value, Value)>,
    f: &Value,
    more: Vec<(Value, Value)>,
) -> Result<(), AllocError>
    ensures { OnOk result (pairs.new.items ≡ pairs.old.items ++ outside (keys_in f.now) more.items) }
{
    for pair in more {
        push_if_outside(pairs, f, pair)?;
    }
    Ok(())
}

fn push_if_outside(
    pairs: &mut Vec<(Value, Value)>,
    f: &Value,
    pair: (Value, Value),
) -> Result<(), AllocError>
    ensures { OnOk result (pairs.new.items ≡ pairs.old.items ++ outside (keys_in f.now) (pair ∷ [])) }
{
    if is_in_domain(f, &pair.0) {
        return Ok(());
    }
    pairs.push(pair)?;
    Ok(())
}

/// Whether the key is in the domain of the function.
fn is_in_domain(f: &Value, key: &Value) -> bool
    ensures { result ≡ among (keys_in f.now) key.now }
{
    f.apply(key).is_some()
}

/// Puts another value beside the key, which comes once at most.
fn replace(pairs: &mut Vec<(Value, Value)>, key: &Value, new: Value)
    requires { IsStrictlySortedBy val_cmp (map (λ p. p.0) pairs.old.items) }
    ensures { pairs.new.items ≡ map (replaced key.now new) pairs.old.items }
{
    for i in 0..pairs.len() {
        let pair = &mut pairs[i];
        if &pair.0 == key {
            pair.1 = new;
            return;
        }
    }
}
