ghost use Rattle.std.specs.Prelude.{◌≡◌, ◌++◌, [], ◌∷◌, IfOk, OnOk, filter, not};
ghost use Rattle.values_core.specs.FunctionOperations.{InExcept, IsFunctionWith};
ghost use Rattle.values_core.specs.Functions.{InDomain, IsFunction, pairs_in};
ghost use Rattle.values_core.specs.Order.{val_eq};
ghost use Rattle.values_core.specs.Sets.{IsSet, IsSetOf, Member};
ghost use Rattle.logs_updates.specs.declared.update.Op.TheVariants.{Add, Append, Put, Remove, Drop};
ghost use Rattle.logs_updates.specs.Changes.{Changes, Does, Finds, IsMappingOf};

use crate::keys::PathKey;
use crate::update::{Op, Update};
use base_core::NoMemory;
use std::alloc::{AllocError, Global};
use values_core::{OpFault, Value, ValueFault, ValueKind};
use values_operations::{append, except_one, merge, single};

/// What the variable's value becomes, or none where a key of the path is missing, the operation has
/// no result there, or the result passes the limits of values.
pub fn apply(alloc: Global, update: &Update, value: &Value) -> Result<Option<Value>, NoMemory>
    ensures { IfOk result (Finds (Changes (Does update.now.op) update.now.path.keys value.now)) }
{
    change(alloc, &update.op, update.path.keys(), value)
}

fn change(
    alloc: Global,
    op: &Op,
    keys: &[PathKey],
    value: &Value,
) -> Result<Option<Value>, AllocError>
    ensures { IfOk result (Finds (Changes (Does op.now) keys.now value.now)) }
{
    value.is_value();
    let Some((key, rest)) = keys.split_first() else {
        return act(alloc, op, value);
    };
    let Some(inner) = key.at(value) else {
        return Ok(None);
    };
    match change(alloc, op, rest, inner)? {
        Some(changed) => replace(alloc, value, key, changed),
        None => Ok(None),
    }
}

/// The function with another value at a key of its domain.
fn replace(
    alloc: Global,
    function: &Value,
    key: &PathKey,
    new: Value,
) -> Result<Option<Value>, AllocError>
    ensures { InDomain key.now function.now → IfOk result (Finds (IsFunctionWith (InExcept function.now key.now new))) }
{
    let place = key.value();
    match except_one(alloc, function, place, new) {
        Ok(value) => Ok(Some(value)),
        Err(OpFault::NoMemory) => Err(AllocError),
        Err(OpFault::Refused(_, _)) => Ok(None),
    }
}

/// What the operation makes of the value.
fn act(alloc: Global, op: &Op, value: &Value) -> Result<Option<Value>, AllocError>
    ensures { IfOk result (Finds (Does op.now value.now)) }
{
    match op {
        Op::Set(new) => Ok(Some(new.copy()?)),
        Op::Put(key, new) => put(alloc, value, key, new),
        Op::Drop(key) => dropped(alloc, value, key),
        Op::Add(new) => added(alloc, value, new),
        Op::Remove(old) => removed(alloc, value, old),
        Op::Append(new) => appended(alloc, value, new),
    }
}

fn put(alloc: Global, value: &Value, key: &Value, new: &Value) -> Result<Option<Value>, AllocError>
    ensures { IfOk result (Finds (Does (Put key.now new.now) value.now)) }
{
    match value.kind() {
        ValueKind::Function => put_into(alloc, value, key, new),
        _ => Ok(None),
    }
}

/// The function with this value at the key, added or replaced.
fn put_into(
    alloc: Global,
    function: &Value,
    key: &Value,
    new: &Value,
) -> Result<Option<Value>, AllocError>
    ensures { IsFunction function.now → IfOk result (Finds (Does (Put key.now new.now) function.now)) }
{
    match single(alloc, key, new) {
        Ok(one) => put_over(alloc, function, key, new, &one),
        Err(OpFault::NoMemory) => Err(AllocError),
        Err(OpFault::Refused(_, _)) => Ok(None),
    }
}

/// The function on one key, and elsewhere the other function.
fn put_over(
    alloc: Global,
    function: &Value,
    key: &Value,
    new: &Value,
    one: &Value,
) -> Result<Option<Value>, AllocError>
    ensures { IsFunction function.now → IsFunctionWith (λ k w. (k ≡ key.now) × (w ≡ new.now)) one.now
        → IfOk result (Finds (Does (Put key.now new.now) function.now)) }
{
    match merge(alloc, one, function) {
        Ok(value) => Ok(Some(value)),
        Err(OpFault::NoMemory) => Err(AllocError),
        Err(OpFault::Refused(_, _)) => Ok(None),
    }
}

fn dropped(alloc: Global, value: &Value, key: &Value) -> Result<Option<Value>, AllocError>
    ensures { IfOk result (Finds (Does (Drop key.now) value.now)) }
{
    match value.apply(key) {
        Some(_) => drop_key(alloc, value, key),
        None => Ok(None),
    }
}

/// The function without a key of its domain.
fn drop_key(alloc: Global, function: &Value, key: &Value) -> Result<Option<Value>, AllocError>
    ensures { InDomain key.now function.now → IfOk result (Finds (Does (Drop key.now) function.now)) }
{
    function.is_value();
    let pairs = pairs_without(alloc, function, key)?;
    make_function(alloc, pairs)
}

/// A copy of the pairs with another key.
fn pairs_without(
    alloc: Global,
    function: &Value,
    key: &Value,
) -> Result<Vec<(Value, Value)>, AllocError>
    ensures { IfOk result (λ others. others.items ≡ filter (λ p. not (val_eq p.0 key.now)) (pairs_in function.now)) }
{
    let pairs = function.pairs(alloc)?;
    let mut others = Vec::with_capacity(alloc, pairs.len())?;
    for pair in pairs {
        push_pair_of_other(&mut others, pair, key)?;
    }
    Ok(others)
}

fn push_pair_of_other(
    others: &mut Vec<(Value, Value)>,
    pair: (Value, Value),
    key: &Value,
) -> Result<(), AllocError>
    ensures { OnOk result (others.new.items ≡ others.old.items ++ filter (λ p. not (val_eq p.0 key.now)) (pair ∷ [])) }
{
    if pair.0 == *key {
        return Ok(());
    }
    others.push(pair)?;
    Ok(())
}

/// The function with these pairs, or none where a key comes twice or it is past the limits.
fn make_function(alloc: Global, pairs: Vec<(Value, Value)>) -> Result<Option<Value>, AllocError>
    ensures { IfOk result (Finds (IsMappingOf pairs.items)) }
{
    match Value::make_function(alloc, pairs) {
        Ok(value) => Ok(Some(value)),
        Err(ValueFault::NoMemory) => Err(AllocError),
        Err(ValueFault::KeyTwice) => Ok(None),
        Err(ValueFault::TooLarge) => Ok(None),
        Err(ValueFault::TooDeep) => Ok(None),
    }
}

fn added(alloc: Global, value: &Value, new: &Value) -> Result<Option<Value>, AllocError>
    ensures { IfOk result (Finds (Does (Add new.now) value.now)) }
{
    match value.kind() {
        ValueKind::Set => add_to(alloc, value, new),
        _ => Ok(None),
    }
}

/// The set with one more member.
fn add_to(alloc: Global, set: &Value, new: &Value) -> Result<Option<Value>, AllocError>
    ensures { IsSet set.now → IfOk result (Finds (Does (Add new.now) set.now)) }
{
    let members = members_with(alloc, set.members(), new)?;
    make_set(members)
}

/// A copy of the members with one more behind them.
fn members_with(alloc: Global, members: &[Value], new: &Value) -> Result<Vec<Value>, AllocError>
    ensures { IfOk result (λ all. all.items ≡ members.now ++ new.now ∷ []) }
{
    let mut all = Vec::with_capacity(alloc, members.len().saturating_add(1))?;
    for member in members {
        all.push(member.copy()?)?;
    }
    all.push(new.copy()?)?;
    Ok(all)
}

fn removed(alloc: Global, value: &Value, old: &Value) -> Result<Option<Value>, AllocError>
    ensures { IfOk result (Finds (Does (Remove old.now) value.now)) }
{
    if value.contains(old) {
        return remove_from(alloc, value, old);
    }
    Ok(None)
}

/// The set without one of its members.
fn remove_from(alloc: Global, set: &Value, old: &Value) -> Result<Option<Value>, AllocError>
    ensures { Member old.now set.now → IfOk result (Finds (Does (Remove old.now) set.now)) }
{
    let members = members_without(alloc, set.members(), old)?;
    make_set(members)
}

/// A copy of the other members.
fn members_without(alloc: Global, members: &[Value], old: &Value) -> Result<Vec<Value>, AllocError>
    ensures { IfOk result (λ others. others.items ≡ filter (λ m. not (val_eq m old.now)) members.now) }
{
    let mut others = Vec::with_capacity(alloc, members.len())?;
    for member in members {
        push_other(&mut others, member, old)?;
    }
    Ok(others)
}

fn push_other(others: &mut Vec<Value>, member: &Value, old: &Value) -> Result<(), AllocError>
    ensures { OnOk result (others.new.items ≡ others.old.items ++ filter (λ m. not (val_eq m old.now)) (member.now ∷ [])) }
{
    if member == old {
        return Ok(());
    }
    others.push(member.copy()?)?;
    Ok(())
}

/// The set of these values, or none where it is past the limits.
fn make_set(members: Vec<Value>) -> Result<Option<Value>, AllocError>
    ensures { IfOk result (Finds (IsSetOf members.items)) }
{
    Value::laws();
    match Value::make_set(members) {
        Ok(value) => Ok(Some(value)),
        Err(ValueFault::NoMemory) => Err(AllocError),
        Err(ValueFault::KeyTwice) => Ok(None),
        Err(ValueFault::TooLarge) => Ok(None),
        Err(ValueFault::TooDeep) => Ok(None),
    }
}

fn appended(alloc: Global, value: &Value, new: &Value) -> Result<Option<Value>, AllocError>
    ensures { IfOk result (Finds (Does (Append new.now) value.now)) }
{
    match append(alloc, value, new) {
        Ok(value) => Ok(Some(value)),
        Err(OpFault::NoMemory) => Err(AllocError),
        Err(OpFault::Refused(_, _)) => Ok(None),
    }
}
