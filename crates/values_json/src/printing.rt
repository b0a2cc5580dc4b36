//! Keys and values of functions, as they are printed.

ghost use Rattle.std.specs.Prelude.{◌≡◌, ◌<◌, IfOk, Some, length, slice_get};
ghost use Rattle.std.specs.List.{list_all};
ghost use Rattle.values_core.specs.Functions.{IsFunction, keys_in, pairs_in, values_in};
ghost use Rattle.values_json.specs.Prints.{is_name, name_of};

use crate::reading::is_mark;
use std::alloc::{AllocError, Global};
use values_core::{Value, ValueKind};

/// The keys of a function, ascending.
pub fn keys_of(alloc: Global, value: &Value) -> Result<Vec<Value>, AllocError>
    requires { IsFunction value.now }
    ensures { IfOk result (λ keys. keys.items ≡ keys_in value.now) }
{
    let mut keys = Vec::with_capacity(alloc, value.len())?;
    for i in 0..value.len() {
        let key = key_at(value, i)?;
        keys.push(key)?;
    }
    Ok(keys)
}

/// The key of a function at `i` in ascending order, from 0.
fn key_at(value: &Value, i: usize) -> Result<Value, AllocError>
    requires { i < length (pairs_in value.now) }
    ensures { IfOk result (λ key. slice_get (keys_in value.now) i ≡ Some key) }
{
    match value.key_at(i)? {
        Some(key) => Ok(key),
        None => unreachable!(),
    }
}

/// The value of a function at its key at `i` in ascending order, from 0.
pub fn value_at(value: &Value, i: usize) -> &Value
    requires { i < length (pairs_in value.now) }
    ensures { slice_get (values_in value.now) i ≡ Some result.now }
{
    match value.value_at(i) {
        Some(inner) => inner,
        None => unreachable!(),
    }
}

/// Whether each key is a string that does not begin with `$`.
pub fn all_named(keys: &[Value]) -> bool
    ensures { result ≡ list_all is_name keys.now }
{
    keys.iter().all(|key| is_field_name(key))
}

fn is_field_name(key: &Value) -> bool
    ensures { result ≡ is_name key.now }
{
    match key.kind() {
        ValueKind::String => !is_mark(text_of_key(key)),
        _ => false,
    }
}

/// The text of a string, and none of all else.
pub fn text_of_key(key: &Value) -> &str
    ensures { result.now ≡ name_of key.now }
{
    match key.kind() {
        ValueKind::String => match key.as_text() {
            Some(text) => text.as_str(),
            None => "",
        },
        _ => "",
    }
}
