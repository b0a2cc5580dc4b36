//! A line's object, read from its text with no map of its members: what stands at the keys of a line is kept, and what stands at others is let go.

ghost use Rattle.std.specs.Prelude.{◌≡◌, ◌<◌, IfOk, IfSome, None, OnOk, Some, length, option_map};
ghost use Rattle.json.specs.Json.{members, value};
ghost use Rattle.serde_json.specs.Data.{Members, no_members};
ghost use Rattle.serde_json.specs.Read.{converted, of_members};
ghost use Rattle.serde_json.specs.View.{view};
ghost use Rattle.logs_shapes.specs.Keys.{key_text};
ghost use Rattle.logs_shapes.specs.Objects.{AgreeAtKeys, IsObjectWith, content_in, members_in};
ghost use Rattle.logs_shapes.specs.Fills.{Fills, ReadsAt};

use crate::key::Key;
use base_core::limits::MAX_JSON_DEPTH;
use json::{Reader, Scratch, Token};
use logs_json_texts::{Unread, read_value, reread_value};
use serde_json::Value as Json;
use std::alloc::{AllocError, Global};
use std::marker::Model;

/// What stands at a key, if it is there. What stood there in a line before is kept, so that its room serves again, and is not seen.
#[derive(Drop)]
pub struct Slot {
    json: Json,
    is_there: bool,
}

impl Model for Slot {
    ghost use Rattle.std.specs.Prelude.{None, Option, Some, if◌then◌else◌};
    ghost use Rattle.std.specs.Coded.{codes};
    ghost use Rattle.serde_json.specs.declared.value.Value.{Value as JsonValue};
    ghost use Rattle.serde_json.specs.contracts.value.Value as json_value;

    ghost Value = { Option JsonValue };

    ghost coded = { Prim.hlevel (codes, json_value.the_row.coded) };

    ghost view = { λ s. if s.is_there then Some s.json else None };
}

impl Slot {
    /// Nothing.
    fn empty() -> Slot
        ensures { result ≡ None }
    {
        Slot {
            json: Json::Null,
            is_there: false,
        }
    }

    /// What stands there, if it is there.
    pub(crate) fn content(&self) -> Option<&Json>
        ensures { option_map (λ json. view json.now) result ≡ content_in self.now }
    {
        if self.is_there {
            return Some(&self.json);
        }
        None
    }

    /// Nothing is there from now on.
    fn clear(&mut self)
        ensures { self.new ≡ None }
    {
        self.is_there = false;
    }

    /// Reads the value that begins at the reader's next token.
    fn read(&mut self, alloc: Global, reader: &mut Reader<'_>) -> Result<(), Unread>
        ensures read { OnOk result (Fills reader.old (content_in self.new) reader.new) }
        ensures shorter { OnOk result (length reader.new < length reader.old) }
    {
        reread_value(alloc, reader, MAX_JSON_DEPTH, &mut self.json)?;
        self.is_there = true;
        Ok(())
    }
}

/// What stands at the keys of a line's object, each where it is there.
#[derive(Drop)]
pub struct LineObject {
    pub init: Slot,
    pub event: Slot,
    pub args: Slot,
    pub clock: Slot,
    pub update: Slot,
    pub see: Slot,
}

impl LineObject {
    /// Nothing at any key.
    fn empty() -> LineObject
        ensures { members_in result ≡ no_members }
    {
        LineObject {
            init: Slot::empty(),
            event: Slot::empty(),
            args: Slot::empty(),
            clock: Slot::empty(),
            update: Slot::empty(),
            see: Slot::empty(),
        }
    }

    /// Nothing is there from now on.
    fn clear(&mut self)
        ensures { members_in self.new ≡ no_members }
    {
        self.init.clear();
        self.event.clear();
        self.args.clear();
        self.clock.clear();
        self.update.clear();
        self.see.clear();
    }

    /// Reads what stands at this key. If it is one of a line, it is kept in the place of what stood there.
    fn read_member(
        &mut self,
        alloc: Global,
        reader: &mut Reader<'_>,
        name: &str,
    ) -> Result<(), Unread>
        ensures read { OnOk result (ReadsAt name.now reader.old reader.new (members_in self.old) (members_in self.new)) }
        ensures shorter { OnOk result (length reader.new < length reader.old) }
    {
        match Key::named(name) {
            Some(key) => self.read_at(alloc, reader, key),
            None => {
                let json = read_value(alloc, reader, MAX_JSON_DEPTH)?;
                drop(json);
                Ok(())
            }
        }
    }

    fn read_at(&mut self, alloc: Global, reader: &mut Reader<'_>, key: Key) -> Result<(), Unread>
        ensures read { OnOk result (ReadsAt (key_text key) reader.old reader.new (members_in self.old) (members_in self.new)) }
        ensures shorter { OnOk result (length reader.new < length reader.old) }
    {
        match key {
            Key::Init => self.init.read(alloc, reader),
            Key::Event => self.event.read(alloc, reader),
            Key::Args => self.args.read(alloc, reader),
            Key::Clock => self.clock.read(alloc, reader),
            Key::Update => self.update.read(alloc, reader),
            Key::See => self.see.read(alloc, reader),
        }
    }
}

/// Room for reading lines, kept from line to line, with the object of the line that was read last.
#[derive(Drop)]
pub struct LineScratch {
    texts: Scratch,
    object: LineObject,
}

impl LineScratch {
    pub fn new(alloc: Global) -> LineScratch {
        LineScratch {
            texts: Scratch::new(alloc),
            object: LineObject::empty(),
        }
    }
}

/// The object that the text is, or none where it was not read: a text that is no JSON or no object
/// gives none.
pub fn line_object<'a>(
    alloc: Global,
    text: &str,
    scratch: &'a mut LineScratch,
) -> Result<Option<&'a LineObject>, AllocError>
    ensures { IfOk result (λ o. IfSome o (λ found. IsObjectWith text.now (members_in found.now))) }
{
    match read_object(alloc, text, &mut scratch.texts, &mut scratch.object) {
        Ok(()) => Ok(Some(&scratch.object)),
        Err(Unread::NotJson) => Ok(None),
        Err(Unread::NoMemory) => Err(AllocError),
    }
}

fn read_object(
    alloc: Global,
    text: &str,
    scratch: &mut Scratch,
    found: &mut LineObject,
) -> Result<(), Unread>
    ensures { OnOk result (IsObjectWith text.now (members_in found.new)) }
{
    found.clear();
    let mut reader = Reader::new(text, scratch)?;
    let Some(Token::BeginObject) = reader.next() else {
        return Err(Unread::NotJson);
    };
    read_contents(alloc, &mut reader, found)?;
    match reader.next() {
        Some(_) => Err(Unread::NotJson),
        None => Ok(()),
    }
}

/// Reads what stands at the keys of a line behind the brace that opens its object, up to the one that closes it.
fn read_contents(
    alloc: Global,
    reader: &mut Reader<'_>,
    found: &mut LineObject,
) -> Result<(), Unread>
    requires { members_in found.old ≡ no_members }
    ensures { OnOk result ((ms : Members)
        × (converted (λ written. of_members written no_members) (members (value 126) (length reader.old) reader.old) ≡ Some (ms, reader.new))
        × AgreeAtKeys ms (members_in found.new)) }
{
    'members: while let Some(name) = reader.next_key()? {
        found.read_member(alloc, reader, name)?;
    }
    Ok(())
}
