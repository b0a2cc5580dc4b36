ghost use Rattle.std.specs.Prelude.{◌≡◌, IfOk, codes, length, option_map};
ghost use Rattle.serde_json.specs.View.{view, items_view, members_view, number_view};
ghost use Rattle.serde_json.specs.Data.{array, object, member, no_members};
ghost use Rattle.values_core.specs.Data.{Val, model, string};
ghost use Rattle.values_json.specs.Reads.{
  Finds,
  Reads,
  is_marked,
  ReadsEach,
  ReadsFields,
  ReadsForm,
  ReadsRecord,
  ReadsFunction,
  ReadsModel,
  ReadsNumber,
  ReadsPair,
  ReadsPairs,
  ReadsSet,
};

use crate::making::{make_mapping, make_record, make_sequence, make_set};
use base_core::{NoMemory, Text};
use serde_json::{Map, Number, Value as Json};
use std::alloc::{AllocError, Global};
use values_core::Value;

/// The value that this JSON stands for, or none where it stands for no value.
pub fn from_json(alloc: Global, json: &Json) -> Result<Option<Value>, NoMemory>
    ensures { IfOk result (Finds (Reads (view json.now))) }
{
    read_value(alloc, json)
}

#[cycle(read)]
fn read_value(alloc: Global, json: &Json) -> Result<Option<Value>, AllocError>
    ensures { IfOk result (Finds (Reads (view json.now))) }
{
    match json {
        Json::Null => read_null(alloc),
        Json::Bool(b) => Ok(Some(Value::boolean(*b))),
        Json::Number(number) => Ok(read_number(number)),
        Json::String(text) => read_text(alloc, text.as_str()),
        Json::Array(items) => read_array(alloc, items),
        Json::Object(members) => read_object(alloc, members),
    }
}

fn read_null(alloc: Global) -> Result<Option<Value>, AllocError>
    ensures { IfOk result (Finds (λ v. v ≡ model (codes "null"))) }
{
    let name = Text::from_text(alloc, "null")?;
    Ok(Some(Value::model(name)))
}

fn read_number(number: &Number) -> Option<Value>
    ensures { Finds (ReadsNumber (number_view number.now)) result }
{
    number.as_i64().map(|n| Value::int(n))
}

fn read_text(alloc: Global, text: &str) -> Result<Option<Value>, AllocError>
    ensures { IfOk result (Finds (λ v. v ≡ string text.now)) }
{
    let text = Text::from_text(alloc, text)?;
    Ok(Some(Value::string(text)))
}

#[cycle(read)]
fn read_array(alloc: Global, items: &Vec<Json>) -> Result<Option<Value>, AllocError>
    ensures { IfOk result (Finds (Reads (array (items_view items.now.items)))) }
{
    match read_items(alloc, items)? {
        Some(values) => make_sequence(alloc, values),
        None => Ok(None),
    }
}

#[cycle(read)]
fn read_object(alloc: Global, members: &Map<String, Json>) -> Result<Option<Value>, AllocError>
    ensures { IfOk result (Finds (Reads (object (members_view members.now.entries)))) }
{
    if members.len() == 1 {
        return read_sole(alloc, members);
    }
    read_record(alloc, members)
}

/// The value of an object with one key.
#[cycle(read)]
fn read_sole(alloc: Global, members: &Map<String, Json>) -> Result<Option<Value>, AllocError>
    ensures { length members.now.entries ≡ 1 → IfOk result (Finds (Reads (object (members_view members.now.entries)))) }
{
    for (mark, content) in members.iter() {
        if is_mark(mark.as_str()) {
            return read_form(alloc, mark.as_str(), content);
        }
    }
    read_record(alloc, members)
}

/// Whether the text begins with `$`.
pub fn is_mark(text: &str) -> bool
    ensures { result ≡ is_marked text.now }
{
    match text.as_bytes().first() {
        Some(byte) => *byte == b'$',
        None => false,
    }
}

#[cycle(read)]
fn read_form(alloc: Global, key: &str, content: &Json) -> Result<Option<Value>, AllocError>
    ensures { IfOk result (Finds (ReadsForm (member key.now (view content.now) no_members))) }
{
    if key == "$set" {
        return read_set(alloc, content);
    }
    if key == "$fun" {
        return read_function(alloc, content);
    }
    if key == "$model" {
        return read_model(alloc, content);
    }
    Ok(None)
}

#[cycle(read)]
fn read_set(alloc: Global, content: &Json) -> Result<Option<Value>, AllocError>
    ensures { IfOk result (Finds (ReadsSet (view content.now))) }
{
    match content {
        Json::Array(items) => match read_items(alloc, items)? {
            Some(values) => make_set(values),
            None => Ok(None),
        },
        _ => Ok(None),
    }
}

#[cycle(read)]
fn read_function(alloc: Global, content: &Json) -> Result<Option<Value>, AllocError>
    ensures { IfOk result (Finds (ReadsFunction (view content.now))) }
{
    match content {
        Json::Array(items) => match read_pairs(alloc, items)? {
            Some(pairs) => make_mapping(alloc, pairs),
            None => Ok(None),
        },
        _ => Ok(None),
    }
}

fn read_model(alloc: Global, content: &Json) -> Result<Option<Value>, AllocError>
    ensures { IfOk result (Finds (ReadsModel (view content.now))) }
{
    match content {
        Json::String(text) => {
            let name = Text::from_text(alloc, text.as_str())?;
            Ok(Some(Value::model(name)))
        }
        _ => Ok(None),
    }
}

#[cycle(read)]
fn read_record(alloc: Global, members: &Map<String, Json>) -> Result<Option<Value>, AllocError>
    ensures { IfOk result (Finds (ReadsRecord (members_view members.now.entries))) }
{
    match read_fields(alloc, members)? {
        Some(fields) => make_record(alloc, fields),
        None => Ok(None),
    }
}

#[cycle(read)]
fn read_items(alloc: Global, items: &Vec<Json>) -> Result<Option<Vec<Value>>, AllocError>
    ensures { IfOk result (λ o. Finds (ReadsEach (items_view items.now.items)) (option_map (λ vs. vs.items) o)) }
{
    let mut values = Vec::with_capacity(alloc, items.len())?;
    for item in items {
        match read_value(alloc, item)? {
            Some(value) => values.push(value)?,
            None => return Ok(None),
        }
    }
    Ok(Some(values))
}

#[cycle(read)]
fn read_pairs(alloc: Global, items: &Vec<Json>) -> Result<Option<Vec<(Value, Value)>>, AllocError>
    ensures { IfOk result (λ o. Finds (ReadsPairs (items_view items.now.items)) (option_map (λ ps. ps.items) o)) }
{
    let mut pairs: Vec<(Value, Value)> = Vec::with_capacity(alloc, items.len())?;
    for item in items {
        match read_pair(alloc, item)? {
            Some(pair) => pairs.push(pair)?,
            None => return Ok(None),
        }
    }
    Ok(Some(pairs))
}

#[cycle(read)]
fn read_pair(alloc: Global, item: &Json) -> Result<Option<(Value, Value)>, AllocError>
    ensures { IfOk result (Finds (ReadsPair (view item.now))) }
{
    match item {
        Json::Array(parts) => read_two(alloc, parts),
        _ => Ok(None),
    }
}

#[cycle(read)]
fn read_two(alloc: Global, parts: &Vec<Json>) -> Result<Option<(Value, Value)>, AllocError>
    ensures { IfOk result (Finds (ReadsPair (array (items_view parts.now.items)))) }
{
    if parts.len() != 2 {
        return Ok(None);
    }
    let Some(key) = read_value(alloc, &parts[0])? else {
        return Ok(None);
    };
    match read_value(alloc, &parts[1])? {
        Some(value) => Ok(Some((key, value))),
        None => Ok(None),
    }
}

#[cycle(read)]
fn read_fields(
    alloc: Global,
    members: &Map<String, Json>,
) -> Result<Option<Vec<(Text, Value)>>, AllocError>
    ensures { IfOk result (λ o. Finds (ReadsFields (members_view members.now.entries)) (option_map (λ fs. fs.items) o)) }
{
    let mut fields = Vec::with_capacity(alloc, members.len())?;
    for (key, content) in members.iter() {
        if is_mark(key.as_str()) {
            return Ok(None);
        }
        let name = Text::from_text(alloc, key.as_str())?;
        match read_value(alloc, content)? {
            Some(value) => fields.push((name, value))?,
            None => return Ok(None),
        }
    }
    Ok(Some(fields))
}
