ghost use Rattle.std.specs.Prelude.{◌≡◌, ◌≤◌, IfOk, IfSome, length};
ghost use Rattle.serde_json.specs.View.{items_view, view};
ghost use Rattle.values_json.specs.Reads.{Finds, Reads, ReadsEach};
ghost use Rattle.logs_lines.specs.Values.{OpReads, PutReads, ReadsSole};

use base_core::NoMemory;
use logs_shapes::Word;
use logs_updates::{Keys, Op, Values};
use serde_json::Value as Json;
use std::alloc::Global;
use values_core::Value;
use values_json::from_json;

/// The values that these stand for, or none where one of them stands for no value.
pub(crate) fn read_values(alloc: Global, items: &[Json]) -> Result<Option<Values>, NoMemory>
    ensures each { IfOk result (Finds (ReadsEach (items_view items.now))) }
    ensures count { IfOk result (λ o. IfSome o (λ vs. length vs ≤ length items.now)) }
{
    let mut values = Values::with_capacity(alloc, items.len())?;
    for item in items {
        match from_json(alloc, item)? {
            Some(value) => values.push(value)?,
            None => return Ok(None),
        }
    }
    Ok(Some(values))
}

/// The keys that these stand for, or none where one of them stands for no value.
pub(crate) fn read_keys(alloc: Global, items: &[Json]) -> Result<Option<Keys>, NoMemory>
    ensures each { IfOk result (Finds (ReadsEach (items_view items.now))) }
    ensures count { IfOk result (λ o. IfSome o (λ ks. length ks ≤ length items.now)) }
{
    let mut keys = Keys::with_capacity(alloc, items.len())?;
    for item in items {
        match from_json(alloc, item)? {
            Some(value) => keys.push(value)?,
            None => return Ok(None),
        }
    }
    Ok(Some(keys))
}

/// The operation of the word with these contents, or none where one of them is no value.
pub(crate) fn read_op(alloc: Global, word: Word, contents: &[Json]) -> Result<Option<Op>, NoMemory>
    ensures { IfOk result (Finds (OpReads word (items_view contents.now))) }
{
    match word {
        Word::Put => read_put(alloc, contents),
        Word::Set => match read_sole(alloc, contents)? {
            Some(value) => Ok(Some(Op::Set(value))),
            None => Ok(None),
        },
        Word::Drop => match read_sole(alloc, contents)? {
            Some(value) => Ok(Some(Op::Drop(value))),
            None => Ok(None),
        },
        Word::Add => match read_sole(alloc, contents)? {
            Some(value) => Ok(Some(Op::Add(value))),
            None => Ok(None),
        },
        Word::Remove => match read_sole(alloc, contents)? {
            Some(value) => Ok(Some(Op::Remove(value))),
            None => Ok(None),
        },
        Word::Append => match read_sole(alloc, contents)? {
            Some(value) => Ok(Some(Op::Append(value))),
            None => Ok(None),
        },
    }
}

fn read_sole(alloc: Global, contents: &[Json]) -> Result<Option<Value>, NoMemory>
    ensures { IfOk result (Finds (ReadsSole (items_view contents.now))) }
{
    if contents.len() != 1 {
        return Ok(None);
    }
    from_json(alloc, &contents[0])
}

fn read_put(alloc: Global, contents: &[Json]) -> Result<Option<Op>, NoMemory>
    ensures { IfOk result (Finds (PutReads (items_view contents.now))) }
{
    if contents.len() != 2 {
        return Ok(None);
    }
    let Some(key) = from_json(alloc, &contents[0])? else {
        return Ok(None);
    };
    match from_json(alloc, &contents[1])? {
        Some(value) => Ok(Some(Op::Put(key, value))),
        None => Ok(None),
    }
}
