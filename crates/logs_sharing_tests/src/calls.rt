use crate::forms::{Form, alone, made};
use crate::outcomes::Told;
use base_core::Text;
use std::alloc::Global;
use values_core::{OpFault, Value};
use values_operations::{
    append, big_union, concat, domain, except_one, function_set, intersect, merge, minus, powerset,
    product, record_set, single, subseq, tail, union,
};

/// A call that is given a value, or a copy of it.
#[derive(Clone, Copy, Drop)]
pub enum Call {
    KeyAt,
    Pairs,
    Domain,
    Single,
    Merge,
    Except,
    Append,
    Concat,
    Tail,
    Part,
    Union,
    Intersect,
    Minus,
    BigUnion,
    Powerset,
    FunctionSet,
    Product,
    RecordSet,
}

/// A row: its name, the value that it begins with, and the call that is given a copy.
pub struct Row(pub &'static str, pub Form, pub Call);

pub const ROWS: [Row; 27] = [
    Row("single of a string", Form::Name, Call::Single),
    Row("single of a set", Form::Set, Call::Single),
    Row("key of a record", Form::Record, Call::KeyAt),
    Row("key of pairs", Form::Pairs, Call::KeyAt),
    Row("pairs of a sequence", Form::Sequence, Call::Pairs),
    Row("pairs of a record", Form::Record, Call::Pairs),
    Row("pairs of pairs", Form::Pairs, Call::Pairs),
    Row("domain of a record", Form::Record, Call::Domain),
    Row("domain of pairs", Form::Pairs, Call::Domain),
    Row("merge with a sequence", Form::Sequence, Call::Merge),
    Row("merge with a record", Form::Record, Call::Merge),
    Row("merge with pairs", Form::Pairs, Call::Merge),
    Row("except in a sequence", Form::Sequence, Call::Except),
    Row("except in a record", Form::Record, Call::Except),
    Row("except in pairs", Form::Pairs, Call::Except),
    Row("append", Form::Sequence, Call::Append),
    Row("concat", Form::Sequence, Call::Concat),
    Row("tail", Form::Sequence, Call::Tail),
    Row("part of a sequence", Form::Sequence, Call::Part),
    Row("union", Form::Set, Call::Union),
    Row("intersect", Form::Set, Call::Intersect),
    Row("minus", Form::Set, Call::Minus),
    Row("union of a set's members", Form::Sets, Call::BigUnion),
    Row("powerset", Form::Set, Call::Powerset),
    Row("set of functions", Form::Set, Call::FunctionSet),
    Row("product", Form::Set, Call::Product),
    Row("set of records", Form::Set, Call::RecordSet),
];

/// What comes of the row.
pub fn outcome(alloc: Global, form: Form, call: Call) -> Told {
    run(alloc, form, call).unwrap_or(Told::NoMemory)
}

fn run(alloc: Global, form: Form, call: Call) -> Result<Told, OpFault> {
    let value = made(alloc, form)?;
    let twin = made(alloc, form)?;
    let copy = value.copy()?;
    let changed = change(alloc, call, &copy);
    let is_kept = value.same(&twin) && copy.same(&twin);
    drop(copy);
    Ok(compared(changed, &value, &twin, is_kept))
}

/// Whether the changed copy differs, and the value is as its twin also when the copy is gone.
pub fn compared(
    changed: Result<Value, OpFault>,
    value: &Value,
    twin: &Value,
    is_kept: bool,
) -> Told {
    match changed {
        Ok(changed) => {
            let differs = !changed.same(twin);
            drop(changed);
            Told::of(is_kept && differs && value.same(twin))
        }
        Err(fault) => Told::of_refused(is_kept && fault == OpFault::NoMemory),
    }
}

fn change(alloc: Global, call: Call, value: &Value) -> Result<Value, OpFault> {
    match call {
        Call::KeyAt => first_key(value),
        Call::Pairs => first_of_pairs(alloc, value),
        Call::Domain => domain(alloc, value),
        Call::Single => single(alloc, value, value),
        Call::Merge => merged(alloc, value),
        Call::Except => changed_at_first(alloc, value),
        Call::Append => append(alloc, value, value),
        Call::Concat => concat(alloc, value, value),
        Call::Tail => tail(alloc, value),
        Call::Part => subseq(alloc, value, &Value::int(2), &Value::int(2)),
        Call::Union => union(alloc, value, &alone(alloc, Value::int(7))?),
        Call::Intersect => intersect(alloc, value, &first_alone(alloc, value)?),
        Call::Minus => minus(alloc, value, &first_alone(alloc, value)?),
        Call::BigUnion => big_union(alloc, value),
        Call::Powerset => powerset(alloc, value),
        Call::FunctionSet => function_set(alloc, value, value),
        Call::Product => product_alone(alloc, value),
        Call::RecordSet => records_alone(alloc, value),
    }
}

fn first_key(value: &Value) -> Result<Value, OpFault> {
    Ok(value.key_at(0)?.unwrap_or(Value::int(0)))
}

/// The value of the last pair.
fn first_of_pairs(alloc: Global, value: &Value) -> Result<Value, OpFault> {
    let mut pairs = value.pairs(alloc)?;
    match pairs.pop() {
        Some((_key, value)) => Ok(value),
        None => Ok(Value::int(0)),
    }
}

fn merged(alloc: Global, value: &Value) -> Result<Value, OpFault> {
    let other = single(alloc, &Value::int(7), value)?;
    merge(alloc, value, &other)
}

/// The function with itself at its first key.
fn changed_at_first(alloc: Global, value: &Value) -> Result<Value, OpFault> {
    let key = first_key(value)?;
    except_one(alloc, value, &key, value.copy()?)
}

/// The set of the first member.
fn first_alone(alloc: Global, value: &Value) -> Result<Value, OpFault> {
    match value.member_at(0) {
        Some(member) => alone(alloc, member.copy()?),
        None => alone(alloc, Value::int(0)),
    }
}

/// The tuples of one member of the set.
fn product_alone(alloc: Global, value: &Value) -> Result<Value, OpFault> {
    let parts = [value.copy()?];
    product(alloc, &parts)
}

/// The records that have a member of the set in their one field.
fn records_alone(alloc: Global, value: &Value) -> Result<Value, OpFault> {
    let names = [Text::from_text(alloc, "a")?];
    let parts = [value.copy()?];
    record_set(alloc, &names, &parts)
}
