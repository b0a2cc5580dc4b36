use base_core::Text;
use std::alloc::{AllocError, Global};
use std::hash::{FoldHasher, Hash, Hasher};
use values_core::{OpFault, Value};
use values_operations::{append, except_one, merge, single};

fn hash_of(value: &Value) -> u64 {
    let mut state = FoldHasher::default();
    value.hash(&mut state);
    state.finish()
}

/// Whether both are one value, with one hash.
fn are_one(a: &Value, b: &Value) -> bool {
    a.same(b) && a.cmp(b).is_eq() && hash_of(a) == hash_of(b)
}

fn add(values: &mut Vec<Value>, value: Value) -> Result<(), AllocError> {
    values.push(value)?;
    Ok(())
}

fn add_pair(pairs: &mut Vec<(Value, Value)>, key: Value, value: i64) -> Result<(), AllocError> {
    pairs.push((key, Value::int(value)))?;
    Ok(())
}

fn add_field(fields: &mut Vec<(Text, Value)>, name: Text, value: i64) -> Result<(), AllocError> {
    fields.push((name, Value::int(value)))?;
    Ok(())
}

fn name(alloc: Global, text: &str) -> Result<Text, AllocError> {
    Ok(Text::from_text(alloc, text)?)
}

fn tuple(alloc: Global, numbers: &[i64]) -> Result<Value, OpFault> {
    let mut items = Vec::new(alloc);
    for n in numbers {
        add(&mut items, Value::int(*n))?;
    }
    Ok(Value::sequence(alloc, items)?)
}

/// The function on this one integer.
fn one_pair(alloc: Global, key: i64, value: i64) -> Result<Value, OpFault> {
    single(alloc, &Value::int(key), &Value::int(value))
}

/// The record of nothing.
fn no_field(alloc: Global) -> Result<Value, OpFault> {
    let fields = Vec::new(alloc);
    Ok(Value::record(alloc, fields)?)
}

fn field(alloc: Global, key: &str, value: i64) -> Result<Value, OpFault> {
    let mut fields = Vec::new(alloc);
    add_field(&mut fields, name(alloc, key)?, value)?;
    Ok(Value::record(alloc, fields)?)
}

/// Whether these are the integers.
fn are_ints(items: &[Value], numbers: &[i64]) -> bool {
    let mut alike = items.len() == numbers.len();
    for (item, n) in items.iter().zip(numbers.iter()) {
        if item.as_int() != Some(*n) {
            alike = false;
        }
    }
    alike
}

/// Whether the items that it lends are these integers.
fn lends(value: &Value, numbers: &[i64]) -> bool {
    match value.items() {
        Some(items) => are_ints(items, numbers),
        None => false,
    }
}

/// `(2 :> 4) @@ (1 :> 3)` lends 3 and 4, and `2 :> 4` nothing.
fn sequences_lend(alloc: Global) -> Result<bool, OpFault> {
    let second = one_pair(alloc, 2, 4)?;
    let both = merge(alloc, &second, &one_pair(alloc, 1, 3)?)?;
    let none = no_field(alloc)?;
    Ok(lends(&both, &[3, 4]) && second.items().is_none() && lends(&none, &[]))
}

/// The pairs of 1 and 1 and of 2 and 2, in falling order, are `<<1, 2>>`.
fn pairs_are_a_sequence(alloc: Global) -> Result<bool, OpFault> {
    let mut pairs = Vec::new(alloc);
    add_pair(&mut pairs, Value::int(2), 2)?;
    add_pair(&mut pairs, Value::int(1), 1)?;
    let function = Value::make_function(alloc, pairs)?;
    Ok(are_one(&function, &tuple(alloc, &[1, 2])?) && function.is_sequence())
}

/// The record of a is the function on the string, and what has no pair is one value.
fn records_are_functions(alloc: Global) -> Result<bool, OpFault> {
    let record = field(alloc, "a", 1)?;
    let mut pairs = Vec::new(alloc);
    add_pair(&mut pairs, Value::string(name(alloc, "a")?), 1)?;
    let function = Value::make_function(alloc, pairs)?;
    let empty = are_one(&no_field(alloc)?, &tuple(alloc, &[])?);
    Ok(are_one(&record, &function) && !record.is_sequence() && empty)
}

fn is_int(value: Option<&Value>, n: i64) -> bool {
    match value {
        Some(value) => value.as_int() == Some(n),
        None => false,
    }
}

/// A sequence has the key 1 and what stands there, and nothing else.
fn places_are_keys(alloc: Global) -> Result<bool, OpFault> {
    let one = tuple(alloc, &[5])?;
    let first = one.key_at(0)?;
    let second = one.key_at(1)?;
    let keys = is_int(first.as_ref(), 1) && second.is_none();
    Ok(keys && is_int(one.apply(&Value::int(1)), 5) && one.apply(&Value::int(2)).is_none())
}

/// A record has its name and what stands there, and nothing else.
fn names_are_keys(alloc: Global) -> Result<bool, OpFault> {
    let record = field(alloc, "a", 6)?;
    let name = Value::string(name(alloc, "a")?);
    let of_name = is_int(record.apply(&name), 6) && record.apply(&Value::int(1)).is_none();
    match record.key_at(0)? {
        Some(key) => Ok(of_name && key.same(&name)),
        None => Ok(false),
    }
}

/// What is made of a copy leaves the value as it was.
fn copies_are_apart(alloc: Global) -> Result<bool, OpFault> {
    let one = tuple(alloc, &[5])?;
    let copy = one.copy()?;
    let longer = append(alloc, &copy, &Value::int(6))?;
    let other = except_one(alloc, &copy, &Value::int(1), Value::int(7))?;
    let changed = lends(&longer, &[5, 6]) && lends(&other, &[7]);
    Ok(changed && lends(&one, &[5]) && are_one(&one, &copy))
}

#[test]
fn functions_have_one_form(rt: HostRuntime) {
    let alloc = rt.alloc();
    assert!(rt; sequences_lend(alloc) == Ok(true));
    assert!(rt; pairs_are_a_sequence(alloc) == Ok(true));
    assert!(rt; records_are_functions(alloc) == Ok(true));
    assert!(rt; places_are_keys(alloc) == Ok(true));
    assert!(rt; names_are_keys(alloc) == Ok(true));
    assert!(rt; copies_are_apart(alloc) == Ok(true));
}
