ghost use Rattle.std.specs.Prelude.{◌≡◌, ◌<◌, ◌≤◌, ◌∷◌, IfOk, OnOk, Some, length};
ghost use Rattle.json.specs.Json.{items, members, value};
ghost use Rattle.json.specs.Reads.{token_of};
ghost use Rattle.serde_json.specs.Data.{no_members};
ghost use Rattle.serde_json.specs.Read.{converted, of_items, of_json, of_members};
ghost use Rattle.serde_json.specs.View.{items_view, members_view, view};

use crate::numbers::number_in;
use json::{Invalid, Reader, Token};
use serde_json::{Map, Value};
use std::alloc::{AllocError, AllocFailed, Global};
use thiserror::Error;

/// Why no value was read.
#[derive(Clone, Copy, Debug, Drop, PartialEq, Eq, Error)]
pub enum Unread {
    /// No value of JSON stands there.
    #[error("not JSON")]
    NotJson,
    #[error("out of memory")]
    NoMemory,
}

impl From<Invalid> for Unread {
    fn from(_invalid: Invalid) -> Unread {
        Unread::NotJson
    }
}

impl From<AllocError> for Unread {
    fn from(_refused: AllocError) -> Unread {
        Unread::NoMemory
    }
}

impl<T: Drop> From<AllocFailed<T>> for Unread {
    fn from(_refused: AllocFailed<T>) -> Unread {
        Unread::NoMemory
    }
}

/// The value that begins at the reader's next token, with arrays and objects at most so deep in one another.
#[cycle(read)]
pub fn read_value(alloc: Global, reader: &mut Reader<'_>, depth: usize) -> Result<Value, Unread>
    ensures read { IfOk result (λ v. converted of_json (value depth reader.old) ≡ Some (view v, reader.new)) }
    ensures shorter { OnOk result (length reader.new < length reader.old) }
{
    let token = reader.next().ok_or(Unread::NotJson)?;
    read_from(alloc, reader, depth, token)
}

/// The value that begins with this token, behind which the reader stands.
#[cycle(read)]
pub(crate) fn read_from(
    alloc: Global,
    reader: &mut Reader<'_>,
    depth: usize,
    token: Token<'_>,
) -> Result<Value, Unread>
    ensures read { IfOk result (λ v. converted of_json (value depth (token_of token.entry ∷ reader.old)) ≡ Some (view v, reader.new)) }
    ensures shorter { OnOk result (length reader.new ≤ length reader.old) }
{
    match token {
        Token::String(text) => Ok(Value::String(String::from_str(alloc, text)?)),
        Token::Number(text) => match number_in(text) {
            Some(number) => Ok(Value::Number(number)),
            None => Err(Unread::NotJson),
        },
        Token::Bool(truth) => Ok(Value::Bool(truth)),
        Token::Null => Ok(Value::Null),
        Token::EndObject | Token::EndArray | Token::Key(_) | Token::Bad => Err(Unread::NotJson),
        Token::BeginArray => {
            if depth == 0 {
                return Err(Unread::NotJson);
            }
            Ok(Value::Array(read_items(alloc, reader, depth - 1)?))
        }
        Token::BeginObject => {
            if depth == 0 {
                return Err(Unread::NotJson);
            }
            Ok(Value::Object(read_members(alloc, reader, depth - 1)?))
        }
    }
}

/// The items behind the bracket that opens an array, up to the one that closes it.
#[cycle(read)]
pub(crate) fn read_items(
    alloc: Global,
    reader: &mut Reader<'_>,
    depth: usize,
) -> Result<Vec<Value>, Unread>
    ensures read { IfOk result
        (λ vs. converted of_items (items (value depth) (length reader.old) reader.old) ≡ Some (items_view vs.items, reader.new)) }
    ensures shorter { OnOk result (length reader.new < length reader.old) }
{
    let mut found = Vec::new(alloc);
    'items: while !reader.take_end_array() {
        let item = read_value(alloc, reader, depth)?;
        found.push(item)?;
    }
    Ok(found)
}

/// The members behind the brace that opens an object, up to the one that closes it. Of a key that
/// stands twice the last counts.
#[cycle(read)]
fn read_members(
    alloc: Global,
    reader: &mut Reader<'_>,
    depth: usize,
) -> Result<Map<String, Value>, Unread>
    ensures read { IfOk result
        (λ ms. converted (λ written. of_members written no_members) (members (value depth) (length reader.old) reader.old)
        ≡ Some (members_view ms.entries, reader.new)) }
    ensures shorter { OnOk result (length reader.new < length reader.old) }
{
    let mut found = Map::new(alloc);
    'members: while let Some(name) = reader.next_key()? {
        let key = String::from_str(alloc, name)?;
        let member = read_value(alloc, reader, depth)?;
        drop(found.insert(key, member)?);
    }
    Ok(found)
}
