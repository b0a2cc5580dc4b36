use base_core::Text;
use std::alloc::{AllocError, Global};
use values_core::{OpFault, Value};

/// Which value a row begins with.
#[derive(Clone, Copy, Drop)]
pub enum Form {
    /// `"name"`
    Name,
    /// `<<<<1>>, <<2>>>>`
    Sequence,
    /// `[a |-> <<1>>, b |-> <<2>>]`
    Record,
    /// `2 :> <<1>> @@ 3 :> <<2>>`
    Pairs,
    /// `{<<1>>, <<2>>}`
    Set,
    /// `{{<<1>>, <<2>>}}`
    Sets,
}

/// A value of this form that shares nothing.
pub fn made(alloc: Global, form: Form) -> Result<Value, OpFault> {
    match form {
        Form::Name => Ok(Value::string(Text::from_text(alloc, "name")?)),
        Form::Sequence => {
            let items = inner(alloc)?;
            Ok(Value::sequence(alloc, items)?)
        }
        Form::Record => keyed_by_names(alloc),
        Form::Pairs => keyed_by_integers(alloc),
        Form::Set => Ok(Value::make_set(inner(alloc)?)?),
        Form::Sets => {
            let inner = Value::make_set(inner(alloc)?)?;
            alone(alloc, inner)
        }
    }
}

/// The sequence of one integer.
pub fn tuple(alloc: Global, n: i64) -> Result<Value, OpFault> {
    let mut items = Vec::new(alloc);
    add(&mut items, Value::int(n))?;
    Ok(Value::sequence(alloc, items)?)
}

/// The set of one member.
pub fn alone(alloc: Global, member: Value) -> Result<Value, OpFault> {
    let mut members = Vec::new(alloc);
    add(&mut members, member)?;
    Ok(Value::make_set(members)?)
}

fn inner(alloc: Global) -> Result<Vec<Value>, OpFault> {
    let mut items = Vec::new(alloc);
    add(&mut items, tuple(alloc, 1)?)?;
    add(&mut items, tuple(alloc, 2)?)?;
    Ok(items)
}

fn keyed_by_names(alloc: Global) -> Result<Value, OpFault> {
    let mut fields = Vec::new(alloc);
    add_field(&mut fields, Text::from_text(alloc, "a")?, tuple(alloc, 1)?)?;
    add_field(&mut fields, Text::from_text(alloc, "b")?, tuple(alloc, 2)?)?;
    Ok(Value::record(alloc, fields)?)
}

fn keyed_by_integers(alloc: Global) -> Result<Value, OpFault> {
    let mut pairs = Vec::new(alloc);
    add_pair(&mut pairs, Value::int(2), tuple(alloc, 1)?)?;
    add_pair(&mut pairs, Value::int(3), tuple(alloc, 2)?)?;
    Ok(Value::make_function(alloc, pairs)?)
}

fn add(values: &mut Vec<Value>, value: Value) -> Result<(), AllocError> {
    values.push(value)?;
    Ok(())
}

fn add_field(fields: &mut Vec<(Text, Value)>, name: Text, value: Value) -> Result<(), AllocError> {
    fields.push((name, value))?;
    Ok(())
}

fn add_pair(pairs: &mut Vec<(Value, Value)>, key: Value, value: Value) -> Result<(), AllocError> {
    pairs.push((key, value))?;
    Ok(())
}
