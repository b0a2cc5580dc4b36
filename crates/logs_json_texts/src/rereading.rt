//! Values read into the place of others, whose lists and texts serve again: texts that are read one behind the other are mostly alike.

ghost use Rattle.std.specs.Prelude.{◌≡◌, ◌<◌, ◌≤◌, OnOk, Some, length};
ghost use Rattle.json.specs.Json.{items, value};
ghost use Rattle.serde_json.specs.Data.{string};
ghost use Rattle.serde_json.specs.Read.{converted, of_items, of_json};
ghost use Rattle.serde_json.specs.View.{items_view, view};
ghost use Rattle.logs_json_texts.specs.Turns.{AddsItem, ReadsArray};

use crate::reading::{Unread, read_from, read_items, read_value};
use json::{Reader, Token};
use serde_json::Value;
use std::alloc::Global;

/// Reads the value that begins at the reader's next token into the place of another. Where none is read, any may stand there.
#[cycle(reread)]
pub fn reread_value(
    alloc: Global,
    reader: &mut Reader<'_>,
    depth: usize,
    place: &mut Value,
) -> Result<(), Unread>
    ensures read { OnOk result (converted of_json (value depth reader.old) ≡ Some (view place.new, reader.new)) }
    ensures shorter { OnOk result (length reader.new < length reader.old) }
{
    let token = reader.next().ok_or(Unread::NotJson)?;
    match token {
        Token::String(text) => {
            put_text(alloc, place, text)?;
            Ok(())
        }
        Token::BeginArray => {
            if depth == 0 {
                return Err(Unread::NotJson);
            }
            reread_array(alloc, reader, depth - 1, place)?;
            Ok(())
        }
        other => {
            *place = read_from(alloc, reader, depth, other)?;
            Ok(())
        }
    }
}

/// Puts a text into the place.
fn put_text(alloc: Global, place: &mut Value, text: &str) -> Result<(), Unread>
    ensures { OnOk result (view place.new ≡ string text.now) }
{
    match place {
        Value::String(kept) => {
            kept.clear();
            kept.push_str(text)?;
            Ok(())
        }
        _ => {
            *place = Value::String(String::from_str(alloc, text)?);
            Ok(())
        }
    }
}

/// Reads the array whose bracket stands before the reader.
#[cycle(reread)]
fn reread_array(
    alloc: Global,
    reader: &mut Reader<'_>,
    depth: usize,
    place: &mut Value,
) -> Result<(), Unread>
    ensures read { OnOk result (ReadsArray depth reader.old place.new reader.new) }
    ensures shorter { OnOk result (length reader.new < length reader.old) }
{
    match place {
        Value::Array(kept) => {
            reread_items(alloc, reader, depth, kept)?;
            Ok(())
        }
        _ => {
            *place = Value::Array(read_items(alloc, reader, depth)?);
            Ok(())
        }
    }
}

/// Reads the items behind the bracket that opens an array, up to the one that closes it, into the places of others.
#[cycle(reread)]
fn reread_items(
    alloc: Global,
    reader: &mut Reader<'_>,
    depth: usize,
    kept: &mut Vec<Value>,
) -> Result<(), Unread>
    ensures read { OnOk result
        (converted of_items (items (value depth) (length reader.old) reader.old) ≡ Some (items_view kept.new.items, reader.new)) }
    ensures shorter { OnOk result (length reader.new < length reader.old) }
{
    let mut count = 0;
    'items: while !reader.take_end_array() {
        reread_item(alloc, reader, depth, kept, count)?;
        count += 1;
    }
    kept.truncate(count);
    Ok(())
}

/// Reads one more item behind so many.
#[cycle(reread)]
fn reread_item(
    alloc: Global,
    reader: &mut Reader<'_>,
    depth: usize,
    kept: &mut Vec<Value>,
    count: usize,
) -> Result<(), Unread>
    requires { count ≤ length kept.old.items }
    ensures read { OnOk result (AddsItem depth count reader.old reader.new kept.old.items kept.new.items) }
    ensures shorter { OnOk result (length reader.new < length reader.old) }
{
    if count < kept.len() {
        reread_value(alloc, reader, depth, &mut kept[count])?;
        return Ok(());
    }
    let item = read_value(alloc, reader, depth)?;
    kept.push(item)?;
    Ok(())
}
