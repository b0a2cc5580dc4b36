//! Of what kind values are.

ghost use Rattle.std.specs.Prelude.{◌≡◌, ◌++◌, IfOk, OnOk, string_bytes};
ghost use Rattle.values_core.specs.Functions.{IsFunction, pairs_in};
ghost use Rattle.run_near_lines.specs.Kinds.{are_alike, have_strings, is_empty, is_function, is_string, keyed_name, kind_name, kinds_text};

use base_core::NoMemory;
use std::alloc::{AllocError, Global};
use values_core::{Value, ValueKind};

/// Adds the kinds of two values, where they are different.
pub(crate) fn push_kinds(
    alloc: Global,
    text: &mut String,
    wanted: &Value,
    found: &Value,
) -> Result<(), NoMemory>
    ensures { OnOk result (string_bytes text.new ≡ string_bytes text.old ++ kinds_text wanted.now found.now) }
{
    if are_alike(alloc, wanted, found)? {
        return Ok(());
    }
    text.push_str(" kinds ")?;
    text.push_str(kind_name(alloc, wanted)?)?;
    text.push_str(" and ")?;
    text.push_str(kind_name(alloc, found)?)
}

/// Whether both are of one kind; the function without a key is of the kind of each function.
fn are_alike(alloc: Global, one: &Value, other: &Value) -> Result<bool, AllocError>
    ensures { IfOk result (λ alike. alike ≡ are_alike one.now other.now) }
{
    if is_function(one) && is_function(other) && (is_empty(one) || is_empty(other)) {
        return Ok(true);
    }
    let name = kind_name(alloc, one)?;
    let other_name = kind_name(alloc, other)?;
    Ok(name == other_name)
}

fn is_function(value: &Value) -> bool
    ensures { result ≡ is_function value.now }
{
    match value.kind() {
        ValueKind::Function => true,
        _ => false,
    }
}

/// Whether it is the function without a key.
fn is_empty(value: &Value) -> bool
    ensures { result ≡ is_empty value.now }
{
    is_function(value) && value.len() == 0
}

/// The kind of a value, in words.
fn kind_name(alloc: Global, value: &Value) -> Result<&'static str, AllocError>
    ensures { IfOk result (λ name. name.now ≡ kind_name value.now) }
{
    match value.kind() {
        ValueKind::Model => Ok("model value"),
        ValueKind::Bool => Ok("truth value"),
        ValueKind::Int => Ok("number"),
        ValueKind::String => Ok("string"),
        ValueKind::Set => Ok("set"),
        ValueKind::Function => function_name(alloc, value),
    }
}

/// The kind of a function, in words.
fn function_name(alloc: Global, value: &Value) -> Result<&'static str, AllocError>
    requires { IsFunction value.now }
    ensures { IfOk result (λ name. name.now ≡ kind_name value.now) }
{
    if value.is_sequence() {
        return Ok("sequence");
    }
    keyed_name(alloc, value)
}

/// The same of one that is no sequence.
fn keyed_name(alloc: Global, value: &Value) -> Result<&'static str, AllocError>
    ensures { IfOk result (λ name. name.now ≡ keyed_name (pairs_in value.now)) }
{
    let pairs = value.pairs(alloc)?;
    if have_strings(&pairs) {
        return Ok("record");
    }
    Ok("function")
}

/// Whether each key is a string.
fn have_strings(pairs: &[(Value, Value)]) -> bool
    ensures { result ≡ have_strings pairs.now }
{
    pairs.iter().all(|pair| is_string(&pair.0))
}

fn is_string(key: &Value) -> bool
    ensures { result ≡ is_string key.now }
{
    match key.kind() {
        ValueKind::String => true,
        _ => false,
    }
}
