ghost use Rattle.std.specs.Prelude.{◌≡◌, ◌↔◌, IfOk, IsTrue, IsUtf8, Ok};
ghost use Rattle.serde_json.specs.View.{members_view, view};
ghost use Rattle.serde_json.specs.Find.{as_object};
ghost use Rattle.logs_shapes.specs.Objects.{IsObjectWith, members_in};
ghost use Rattle.logs_shapes.specs.Seen.{shape_seen};
ghost use Rattle.logs_shapes.specs.Shapes.{shape_of};
ghost use Rattle.logs_lines.specs.Lines.{InitSays, IsBlank, LineSays, ObjectSays, ShapeSays, TextSays};

use crate::fields::{knows_sees, sees_of};
use crate::kind::{LogKind, Outcome};
use crate::names::SpecNames;
use crate::position::Position;
use crate::step::step_line;
use base_core::NoMemory;
use base_core::limits::MAX_LINE_BYTES;
use logs_shapes::{Key, LineObject, LineScratch, Shape, line_object, line_shape, object_shape};
use serde_json::{Map, Value as Json};
use std::alloc::{AllocError, Global};
use std::str;

/// What a line of a log says, or the first of its refusals.
pub fn read_line<N: SpecNames>(
    alloc: Global,
    names: &N,
    at: &Position,
    bytes: &[u8],
) -> Result<Outcome, NoMemory>
    ensures { IfOk result (LineSays (N.setting names.now) at.now bytes.now) }
{
    let mut scratch = LineScratch::new(alloc);
    line_within(alloc, &mut scratch, names, at, bytes)
}

/// The same with room for reading that is kept from line to line.
pub(crate) fn line_within<N: SpecNames>(
    alloc: Global,
    scratch: &mut LineScratch,
    names: &N,
    at: &Position,
    bytes: &[u8],
) -> Result<Outcome, NoMemory>
    ensures { IfOk result (LineSays (N.setting names.now) at.now bytes.now) }
{
    if bytes.len() > MAX_LINE_BYTES {
        return Ok(Outcome::Refused(LogKind::LineTooLong));
    }
    if is_blank(bytes) {
        return Ok(Outcome::Blank);
    }
    text_line(alloc, scratch, names, at, bytes)
}

fn is_blank(line: &[u8]) -> bool
    ensures { IsTrue result ↔ IsBlank line.now }
{
    line.iter()
        .all(|b| *b == b' ' || *b == b'\t' || *b == b'\r')
}

fn text_line<N: SpecNames>(
    alloc: Global,
    scratch: &mut LineScratch,
    names: &N,
    at: &Position,
    bytes: &[u8],
) -> Result<Outcome, NoMemory>
    ensures { IfOk result (TextSays (N.setting names.now) at.now bytes.now) }
{
    let Ok(text) = str::from_utf8(bytes) else {
        return Ok(Outcome::Refused(LogKind::NotJson));
    };
    let read = line_object(alloc, text, scratch)?;
    match read {
        Some(object) => kept_line(alloc, names, at, text, object),
        None => tree_line(alloc, names, at, text),
    }
}

/// What the text says, given what stands in its object at the keys of a line.
fn kept_line<N: SpecNames>(
    alloc: Global,
    names: &N,
    at: &Position,
    text: &str,
    object: &LineObject,
) -> Result<Outcome, NoMemory>
    requires utf8 { IsUtf8 text.now }
    requires object { IsObjectWith text.now (members_in object.now) }
    ensures { IfOk result (TextSays (N.setting names.now) at.now text.now) }
{
    let _text = text;
    object_line(alloc, names, at, object)
}

fn object_line<N: SpecNames>(
    alloc: Global,
    names: &N,
    at: &Position,
    object: &LineObject,
) -> Result<Outcome, NoMemory>
    ensures { IfOk result (ShapeSays (N.setting names.now) at.now (shape_of (members_in object.now))) }
{
    match object_shape(object) {
        Ok(shape) => shaped_line(alloc, names, at, &shape),
        Err(key) => Ok(Outcome::Refused(LogKind::BadField(key))),
    }
}

/// The same of a text that was not read as the object of a line: its tree tells why.
fn tree_line<N: SpecNames>(
    alloc: Global,
    names: &N,
    at: &Position,
    text: &str,
) -> Result<Outcome, NoMemory>
    requires { IsUtf8 text.now }
    ensures { IfOk result (TextSays (N.setting names.now) at.now text.now) }
{
    match Json::from_str(alloc, text) {
        Ok(json) => json_line(alloc, names, at, &json),
        Err(error) => if error.is_memory() {
            Err(AllocError)
        } else {
            Ok(Outcome::Refused(LogKind::NotJson))
        },
    }
}

fn json_line<N: SpecNames>(
    alloc: Global,
    names: &N,
    at: &Position,
    json: &Json,
) -> Result<Outcome, NoMemory>
    ensures { IfOk result (ObjectSays (N.setting names.now) at.now (as_object (view json.now))) }
{
    match json.as_object() {
        Some(members) => members_line(alloc, names, at, members),
        None => Ok(Outcome::Refused(LogKind::NotObject)),
    }
}

fn members_line<N: SpecNames>(
    alloc: Global,
    names: &N,
    at: &Position,
    members: &Map<String, Json>,
) -> Result<Outcome, NoMemory>
    ensures { IfOk result (ShapeSays (N.setting names.now) at.now (shape_of (members_view members.now.entries))) }
{
    match line_shape(members) {
        Ok(shape) => shaped_line(alloc, names, at, &shape),
        Err(key) => Ok(Outcome::Refused(LogKind::BadField(key))),
    }
}

fn shaped_line<N: SpecNames>(
    alloc: Global,
    names: &N,
    at: &Position,
    shape: &Shape,
) -> Result<Outcome, NoMemory>
    ensures { IfOk result (ShapeSays (N.setting names.now) at.now (Ok (shape_seen shape.now))) }
{
    if shape.init {
        init_line(alloc, names, at, shape)
    } else {
        step_line(alloc, names, at, shape)
    }
}

/// What a line says that tells of the initial state.
fn init_line<N: SpecNames>(
    alloc: Global,
    names: &N,
    at: &Position,
    shape: &Shape,
) -> Result<Outcome, NoMemory>
    ensures { IfOk result (InitSays (N.setting names.now) at.now (shape_seen shape.now)) }
{
    if !at.first {
        return Ok(Outcome::Refused(LogKind::InitNotFirst));
    }
    let Some(sees) = sees_of(alloc, names, shape)? else {
        return Ok(Outcome::Refused(LogKind::BadValue(Key::See)));
    };
    if !knows_sees(names, shape) {
        return Ok(Outcome::Refused(LogKind::UnknownVariable));
    }
    Ok(Outcome::Init(sees))
}
