ghost use Rattle.std.specs.Prelude.{◌≡◌, ◌∷◌, IfOk, []};

use base_core::Text;
use std::alloc::{AllocError, Global};
use values_core::{EvalKind, OpFault, THE_TERM, Value};
use values_operations::{interval, merge, product, record_set, single};

fn ints(alloc: Global, numbers: &[i64]) -> Result<Vec<Value>, AllocError> {
    let mut values = Vec::new(alloc);
    for n in numbers {
        values.push(Value::int(*n))?;
    }
    Ok(values)
}

/// The set of these integers; where there is no memory for it, an integer.
fn set(alloc: Global, numbers: &[i64]) -> Value {
    match ints(alloc, numbers) {
        Ok(members) => Value::make_set(members).unwrap_or(Value::int(0)),
        Err(_) => Value::int(0),
    }
}

/// The sequence of these integers; where there is no memory for it, an integer.
fn tuple(alloc: Global, numbers: &[i64]) -> Value {
    match ints(alloc, numbers) {
        Ok(items) => Value::sequence(alloc, items).unwrap_or(Value::int(0)),
        Err(_) => Value::int(0),
    }
}

fn pair_of_sets(alloc: Global, a: Value, b: Value) -> Result<Value, OpFault> {
    let mut members = Vec::new(alloc);
    members.push(a).map_err(AllocError::from)?;
    members.push(b).map_err(AllocError::from)?;
    Ok(Value::make_set(members)?)
}

fn refuses(answer: Result<Value, OpFault>, kind: EvalKind, operand: u8) -> bool {
    match answer {
        Ok(_) => false,
        Err(fault) => fault == OpFault::Refused(kind, operand),
    }
}

fn int(n: i64) -> Value {
    Value::int(n)
}

/// `value` is in each of so many sets, one inside the other.
fn nested(alloc: Global, levels: u32) -> Result<Value, OpFault> {
    let mut value = int(0);
    for _ in 0..levels {
        value = pair_of_sets(alloc, value.copy()?, value)?;
    }
    Ok(value)
}

fn two(alloc: Global, a: Value, b: Value) -> Result<Vec<Value>, AllocError>
    ensures { IfOk result (λ v. v.items ≡ a ∷ b ∷ []) }
{
    let mut values = Vec::new(alloc);
    values.push(a)?;
    values.push(b)?;
    Ok(values)
}

fn product_of_two(alloc: Global, a: Value, b: Value) -> Result<Value, OpFault> {
    let parts = two(alloc, a, b)?;
    product(alloc, parts.as_slice())
}

/// {1} \X {2, 3} is {<<1, 2>>, <<1, 3>>}.
fn tuples_are_all(alloc: Global) -> Result<bool, OpFault> {
    let tuples = product_of_two(alloc, set(alloc, &[1]), set(alloc, &[2, 3]))?;
    let both = tuples.contains(&tuple(alloc, &[1, 2])) && tuples.contains(&tuple(alloc, &[1, 3]));
    Ok(both && tuples.len() == 2)
}

/// The integers from 1 to `last`.
fn up_to(alloc: Global, last: i64) -> Result<Value, OpFault> {
    interval(alloc, &int(1), &int(last))
}

/// An empty part leaves no tuple however large the other is.
fn tuples_with_none(alloc: Global) -> Result<bool, OpFault> {
    let many = up_to(alloc, 100_000)?;
    let none = product_of_two(alloc, many, set(alloc, &[]))?;
    Ok(none.len() == 0)
}

/// No part leaves one tuple.
fn tuples_of_nothing(alloc: Global) -> Result<bool, OpFault> {
    let one = product(alloc, &[])?;
    Ok(one.len() == 1 && one.contains(&tuple(alloc, &[])))
}

/// 400 times 250 tuples are not too many.
fn most_tuples(alloc: Global) -> Result<bool, OpFault> {
    let most = up_to(alloc, 400)?;
    let all = product_of_two(alloc, most, up_to(alloc, 250)?)?;
    Ok(all.len() == 100_000)
}

/// 401 times 250 tuples are.
fn too_many_tuples(alloc: Global) -> Result<bool, OpFault> {
    let more = up_to(alloc, 401)?;
    let told = product_of_two(alloc, more, up_to(alloc, 250)?);
    Ok(refuses(told, EvalKind::TooLarge, THE_TERM))
}

/// What is in 32 sets is too deep for a tuple.
fn too_deep_tuples(alloc: Global) -> Result<bool, OpFault> {
    let deep = nested(alloc, 32)?;
    let told = product_of_two(alloc, set(alloc, &[1]), deep);
    Ok(refuses(told, EvalKind::TooDeep, THE_TERM))
}

#[test]
fn tuples_are_listed(rt: HostRuntime) {
    let alloc = rt.alloc();
    assert!(rt; tuples_are_all(alloc) == Ok(true));
    assert!(rt; tuples_with_none(alloc) == Ok(true));
    assert!(rt; tuples_of_nothing(alloc) == Ok(true));
    assert!(rt; most_tuples(alloc) == Ok(true));
    assert!(rt; too_many_tuples(alloc) == Ok(true));
    assert!(rt; too_deep_tuples(alloc) == Ok(true));
    assert!(rt;
        refuses(
            product_of_two(alloc, set(alloc, &[1]), int(2)),
            EvalKind::NotSet,
            1
        )
    );
}

fn names(alloc: Global, a: &str, b: &str) -> Result<Vec<Text>, AllocError>
    ensures { IfOk result (λ v. v.items ≡ a.now ∷ b.now ∷ []) }
{
    let mut names = Vec::new(alloc);
    names.push(Text::from_text(alloc, a)?)?;
    names.push(Text::from_text(alloc, b)?)?;
    Ok(names)
}

/// The records with these values of b and of a, whose names are given out of order.
fn records(alloc: Global, of_b: Value, of_a: Value) -> Result<Value, OpFault> {
    let names = names(alloc, "b", "a")?;
    let parts = two(alloc, of_b, of_a)?;
    record_set(alloc, names.as_slice(), parts.as_slice())
}

fn string(alloc: Global, name: &str) -> Result<Value, AllocError> {
    let name = Text::from_text(alloc, name)?;
    Ok(Value::string(name))
}

/// The record of one name with this value.
fn field(alloc: Global, name: &str, value: i64) -> Result<Value, OpFault> {
    let name = string(alloc, name)?;
    single(alloc, &name, &int(value))
}

/// The record with these values of b and of a.
fn record(alloc: Global, of_b: i64, of_a: i64) -> Result<Value, OpFault> {
    let b = field(alloc, "b", of_b)?;
    let a = field(alloc, "a", of_a)?;
    merge(alloc, &b, &a)
}

fn records_are_all(alloc: Global) -> Result<bool, OpFault> {
    let records = records(alloc, set(alloc, &[1, 2]), set(alloc, &[3]))?;
    let low = record(alloc, 1, 3)?;
    let high = record(alloc, 2, 3)?;
    Ok(records.contains(&low) && records.contains(&high) && records.len() == 2)
}

fn one_name(alloc: Global, a: &str) -> Result<Vec<Text>, AllocError>
    ensures { IfOk result (λ v. v.items ≡ a.now ∷ []) }
{
    let mut names = Vec::new(alloc);
    names.push(Text::from_text(alloc, a)?)?;
    Ok(names)
}

fn one(alloc: Global, a: Value) -> Result<Vec<Value>, AllocError>
    ensures { IfOk result (λ v. v.items ≡ a ∷ []) }
{
    let mut values = Vec::new(alloc);
    values.push(a)?;
    Ok(values)
}

/// The records of one name with these values.
fn fields(alloc: Global, name: &str, values: Value) -> Result<Value, OpFault> {
    let names = one_name(alloc, name)?;
    let parts = one(alloc, values)?;
    record_set(alloc, names.as_slice(), parts.as_slice())
}

/// One name over `{1, 2}` has two records.
fn records_of_one(alloc: Global) -> Result<bool, OpFault> {
    let records = fields(alloc, "a", set(alloc, &[1, 2]))?;
    let low = field(alloc, "a", 1)?;
    let high = field(alloc, "a", 2)?;
    Ok(records.contains(&low) && records.contains(&high) && records.len() == 2)
}

/// No name has one record, which is empty.
fn record_of_nothing(alloc: Global) -> Result<bool, OpFault> {
    let one = record_set(alloc, &[], &[])?;
    Ok(one.len() == 1 && one.contains(&tuple(alloc, &[])))
}

#[test]
fn records_are_listed(rt: HostRuntime) {
    let alloc = rt.alloc();
    assert!(rt; records_are_all(alloc) == Ok(true));
    assert!(rt; records_of_one(alloc) == Ok(true));
    assert!(rt; record_of_nothing(alloc) == Ok(true));
    assert!(rt; refuses(records(alloc, set(alloc, &[]), int(3)), EvalKind::NotSet, 1));
}
