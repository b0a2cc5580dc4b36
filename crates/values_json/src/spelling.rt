ghost use Rattle.std.specs.Prelude.{◌≡◌, ◌++◌, if◌then◌else◌, OnOk, codes, false, string_bytes};
ghost use Rattle.serde_json.specs.Data.{array, object, string};
ghost use Rattle.serde_json.specs.Find.{of_integer};
ghost use Rattle.serde_json.specs.Written.{comma_if, compact_text, items_text, members_text, number_text};
ghost use Rattle.values_core.specs.Data.{Val, model, pairs_of, text_of, vals_of};
ghost use Rattle.values_core.specs.Functions.{IsFunction, keys_in, pairs_in};
ghost use Rattle.values_core.specs.Kind.{kind_of};
ghost use Rattle.values_core.specs.Sets.{IsSet};
ghost use Rattle.values_json.specs.Prints.{are_named, marked, print_fields, print_members, print_pairs, print_values, prints};

use crate::printing::{all_named, keys_of, text_of_key, value_at};
use base_core::{NoMemory, Text};
use serde_json::Value as Json;
use std::alloc::{AllocError, Global};
use values_core::{Value, ValueKind};

/// Adds the text of the value's one JSON, with no blanks. Where memory is wanting a part of it may stand there.
pub fn push_json(alloc: Global, text: &mut String, value: &Value) -> Result<(), NoMemory>
    ensures { OnOk result (string_bytes text.new ≡ string_bytes text.old ++ compact_text (prints value.now)) }
{
    push_value(alloc, text, value)
}

#[cycle(push)]
fn push_value(alloc: Global, text: &mut String, value: &Value) -> Result<(), AllocError>
    ensures { OnOk result (string_bytes text.new ≡ string_bytes text.old ++ compact_text (prints value.now)) }
{
    if let Some(truth) = value.as_bool() {
        return push_truth(text, truth);
    }
    if let Some(n) = value.as_int() {
        return push_int(text, n);
    }
    if let Some(name) = value.as_text() {
        return push_named(alloc, text, value.kind(), name);
    }
    match value.kind() {
        ValueKind::Set => push_set(alloc, text, value),
        _ => push_function(alloc, text, value),
    }
}

fn push_truth(text: &mut String, truth: bool) -> Result<(), AllocError>
    ensures { OnOk result (string_bytes text.new ≡ string_bytes text.old ++ (if truth then codes "true" else codes "false")) }
{
    text.push_str(if truth { "true" } else { "false" })
}

fn push_int(text: &mut String, n: i64) -> Result<(), AllocError>
    ensures { OnOk result (string_bytes text.new ≡ string_bytes text.old ++ number_text (of_integer n)) }
{
    write!(text, "{n}")?;
    Ok(())
}

/// Adds a model value or a string.
fn push_named(
    alloc: Global,
    text: &mut String,
    kind: ValueKind,
    name: &Text,
) -> Result<(), AllocError>
    ensures { (v : Val) → kind_of v ≡ kind → text_of v ≡ Some name.now
        → OnOk result (string_bytes text.new ≡ string_bytes text.old ++ compact_text (prints v)) }
{
    match kind {
        ValueKind::Model => push_model(alloc, text, name),
        _ => push_quoted(alloc, text, name.as_str()),
    }
}

fn push_model(alloc: Global, text: &mut String, name: &Text) -> Result<(), AllocError>
    ensures { OnOk result (string_bytes text.new ≡ string_bytes text.old ++ compact_text (prints (model name.now))) }
{
    if name.as_str() == "null" {
        return text.push_str("null");
    }
    text.push_str("{\"$model\":")?;
    push_quoted(alloc, text, name.as_str())?;
    text.push_str("}")
}

/// Adds the text in quotes, with what JSON escapes.
fn push_quoted(alloc: Global, text: &mut String, inner: &str) -> Result<(), AllocError>
    ensures { OnOk result (string_bytes text.new ≡ string_bytes text.old ++ compact_text (string inner.now)) }
{
    let json = Json::String(String::from_str(alloc, inner)?);
    let quoted = json.to_string(alloc)?;
    text.push_str(quoted.as_str())
}

/// Adds a comma where something stands before.
fn push_comma(text: &mut String, later: bool) -> Result<(), AllocError>
    ensures { OnOk result (string_bytes text.new ≡ string_bytes text.old ++ comma_if later) }
{
    if later {
        return text.push_str(",");
    }
    Ok(())
}

#[cycle(push)]
fn push_set(alloc: Global, text: &mut String, value: &Value) -> Result<(), AllocError>
    requires { IsSet value.now }
    ensures { OnOk result (string_bytes text.new ≡ string_bytes text.old ++ compact_text (prints value.now)) }
{
    text.push_str("{\"$set\":[")?;
    push_members(alloc, text, value.members())?;
    text.push_str("}")
}

/// Adds the members with the bracket behind them.
#[cycle(push)]
fn push_members(alloc: Global, text: &mut String, members: &[Value]) -> Result<(), AllocError>
    ensures { OnOk result (string_bytes text.new ≡ string_bytes text.old ++ items_text false (print_members (vals_of members.now))) }
{
    for i in 0..members.len() {
        push_comma(text, i > 0)?;
        push_value(alloc, text, &members[i])?;
    }
    text.push_str("]")
}

#[cycle(push)]
fn push_function(alloc: Global, text: &mut String, value: &Value) -> Result<(), AllocError>
    requires { IsFunction value.now }
    ensures { OnOk result (string_bytes text.new ≡ string_bytes text.old ++ compact_text (prints value.now)) }
{
    if value.is_sequence() {
        text.push_str("[")?;
        return push_values(alloc, text, value);
    }
    let keys = keys_of(alloc, value)?;
    push_keyed(alloc, text, keys.as_slice(), value)
}

/// Adds the values of a function with the bracket behind them.
#[cycle(push)]
fn push_values(alloc: Global, text: &mut String, value: &Value) -> Result<(), AllocError>
    requires { IsFunction value.now }
    ensures { OnOk result (string_bytes text.new ≡ string_bytes text.old ++ items_text false (print_values (pairs_of (pairs_in value.now)))) }
{
    for i in 0..value.len() {
        push_comma(text, i > 0)?;
        push_value(alloc, text, value_at(value, i))?;
    }
    text.push_str("]")
}

/// Adds a function that is no sequence.
#[cycle(push)]
fn push_keyed(
    alloc: Global,
    text: &mut String,
    keys: &[Value],
    value: &Value,
) -> Result<(), AllocError>
    requires { keys.now ≡ keys_in value.now }
    ensures { let pairs = pairs_of (pairs_in value.now) in
        OnOk result (string_bytes text.new ≡ string_bytes text.old
        ++ compact_text (if are_named pairs then object (print_fields pairs) else marked (codes "$fun") (array (print_pairs pairs)))) }
{
    if all_named(keys) {
        text.push_str("{")?;
        return push_fields(alloc, text, keys, value);
    }
    text.push_str("{\"$fun\":[")?;
    push_pairs(alloc, text, keys, value)?;
    text.push_str("}")
}

/// Adds the fields of a record with the brace behind them.
#[cycle(push)]
fn push_fields(
    alloc: Global,
    text: &mut String,
    keys: &[Value],
    value: &Value,
) -> Result<(), AllocError>
    requires { keys.now ≡ keys_in value.now }
    ensures { OnOk result (string_bytes text.new ≡ string_bytes text.old ++ members_text false (print_fields (pairs_of (pairs_in value.now)))) }
{
    for i in 0..keys.len() {
        push_comma(text, i > 0)?;
        push_quoted(alloc, text, text_of_key(&keys[i]))?;
        text.push_str(":")?;
        push_value(alloc, text, value_at(value, i))?;
    }
    text.push_str("}")
}

/// Adds the pairs of a function with the bracket behind them.
#[cycle(push)]
fn push_pairs(
    alloc: Global,
    text: &mut String,
    keys: &[Value],
    value: &Value,
) -> Result<(), AllocError>
    requires { keys.now ≡ keys_in value.now }
    ensures { OnOk result (string_bytes text.new ≡ string_bytes text.old ++ items_text false (print_pairs (pairs_of (pairs_in value.now)))) }
{
    for i in 0..keys.len() {
        push_comma(text, i > 0)?;
        text.push_str("[")?;
        push_value(alloc, text, &keys[i])?;
        text.push_str(",")?;
        push_value(alloc, text, value_at(value, i))?;
        text.push_str("]")?;
    }
    text.push_str("]")
}
