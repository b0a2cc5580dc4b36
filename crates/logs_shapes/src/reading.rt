ghost use Rattle.std.specs.Prelude.{◌≡◌, IfErr, IfOk, MatchOption, Err, None, Ok, Some, is_some, option_map, true};
ghost use Rattle.serde_json.specs.View.{items_view, members_view};
ghost use Rattle.logs_shapes.specs.ClockSeen.{clock_seen};
ghost use Rattle.logs_shapes.specs.Objects.{AgreeAtKeys, contents_in, members_in};
ghost use Rattle.logs_shapes.specs.Parts.{each_of, see_of, update_of};
ghost use Rattle.logs_shapes.specs.Shapes.{args_at, clock_at, event_at, init_at, shape_of, sees_at, updates_at};
ghost use Rattle.logs_shapes.specs.Seen.{shape_seen};

use crate::clock::{RawClock, clock_of};
use crate::contents::Contents;
use crate::key::Key;
use crate::members::content;
use crate::object::LineObject;
use crate::parts::{are_sees, are_updates};
use crate::shape::Shape;
use serde_json::{Map, Value as Json};

/// The shape of a line with these members, or the first key whose content has not its shape.
pub fn line_shape(members: &Map<String, Json>) -> Result<Shape<'_>, Key>
    ensures shape { IfOk result (λ s. shape_of (members_view members.now.entries) ≡ Ok (shape_seen s)) }
    ensures key { IfErr result (λ key. shape_of (members_view members.now.entries) ≡ Err key) }
{
    shape_in(contents_of(members))
}

/// The shape of a line with this object, or the first key whose content has not its shape.
pub fn object_shape(object: &LineObject) -> Result<Shape<'_>, Key>
    ensures shape { IfOk result (λ s. shape_of (members_in object.now) ≡ Ok (shape_seen s)) }
    ensures key { IfErr result (λ key. shape_of (members_in object.now) ≡ Err key) }
{
    shape_in(kept_in(object))
}

/// What stands at the keys of a line in its object.
fn kept_in(object: &LineObject) -> Contents<'_>
    ensures { contents_in result ≡ members_in object.now }
{
    Contents {
        init: object.init.content(),
        event: object.event.content(),
        args: object.args.content(),
        clock: object.clock.content(),
        update: object.update.content(),
        see: object.see.content(),
    }
}

/// What stands at the keys of a line among the members.
fn contents_of(members: &Map<String, Json>) -> Contents<'_>
    ensures { AgreeAtKeys (members_view members.now.entries) (contents_in result) }
{
    Contents {
        init: content(members, Key::Init),
        event: content(members, Key::Event),
        args: content(members, Key::Args),
        clock: content(members, Key::Clock),
        update: content(members, Key::Update),
        see: content(members, Key::See),
    }
}

fn shape_in(contents: Contents<'_>) -> Result<Shape<'_>, Key>
    ensures shape { IfOk result (λ s. shape_of (contents_in contents.entry) ≡ Ok (shape_seen s)) }
    ensures key { IfErr result (λ key. shape_of (contents_in contents.entry) ≡ Err key) }
{
    let Some(init) = init_at(contents) else {
        return Err(Key::Init);
    };
    let Some(event) = event_at(contents, init) else {
        return Err(Key::Event);
    };
    let Some(args) = args_at(contents, event.is_some()) else {
        return Err(Key::Args);
    };
    let Some(clock) = clock_at(contents) else {
        return Err(Key::Clock);
    };
    let Some(updates) = updates_at(contents, init) else {
        return Err(Key::Update);
    };
    let Some(sees) = sees_at(contents) else {
        return Err(Key::See);
    };
    Ok(Shape {
        init,
        event,
        args,
        clock,
        updates,
        sees,
    })
}

fn init_at(contents: Contents<'_>) -> Option<bool>
    ensures { result ≡ init_at (contents_in contents.entry) }
{
    match contents.at(Key::Init) {
        None => Some(false),
        Some(json) => json.as_bool(),
    }
}

fn event_at<'a>(contents: Contents<'a>, init: bool) -> Option<Option<&'a str>>
    ensures { option_map (λ event. option_map (λ name. name.now) event) result ≡ event_at init (contents_in contents.entry) }
{
    let Some(json) = contents.at(Key::Event) else {
        return Some(None);
    };
    if init {
        return None;
    }
    match json.as_str() {
        Some(name) => Some(Some(name)),
        None => None,
    }
}

fn args_at<'a>(contents: Contents<'a>, has_event: bool) -> Option<&'a [Json]>
    ensures { option_map (λ args. items_view args.now) result ≡ args_at has_event (contents_in contents.entry) }
{
    let Some(json) = contents.at(Key::Args) else {
        return Some(&[]);
    };
    if !has_event {
        return None;
    }
    match json.as_array() {
        Some(items) => Some(items.as_slice()),
        None => None,
    }
}

fn clock_at<'a>(contents: Contents<'a>) -> Option<Option<RawClock<'a>>>
    ensures { option_map (λ clock. option_map clock_seen clock) result ≡ clock_at (contents_in contents.entry) }
{
    let Some(json) = contents.at(Key::Clock) else {
        return Some(None);
    };
    match clock_of(json) {
        Some(clock) => Some(Some(clock)),
        None => None,
    }
}

#[tactic(auto, using(crate::proofs::PartLemmas::each_is))]
fn updates_at<'a>(contents: Contents<'a>, init: bool) -> Option<&'a [Json]>
    ensures { MatchOption result (updates_at init (contents_in contents.entry) ≡ None)
        (λ items. (updates_at init (contents_in contents.entry) ≡ each_of update_of (items_view items.now)) × (is_some (each_of update_of (items_view items.now)) ≡ true)) }
{
    let Some(json) = contents.at(Key::Update) else {
        return Some(&[]);
    };
    if init {
        return None;
    }
    let items = json.as_array()?;
    if are_updates(items.as_slice()) {
        Some(items.as_slice())
    } else {
        None
    }
}

#[tactic(auto, using(crate::proofs::PartLemmas::each_is))]
fn sees_at<'a>(contents: Contents<'a>) -> Option<&'a [Json]>
    ensures { MatchOption result (sees_at (contents_in contents.entry) ≡ None)
        (λ items. (sees_at (contents_in contents.entry) ≡ each_of see_of (items_view items.now)) × (is_some (each_of see_of (items_view items.now)) ≡ true)) }
{
    let Some(json) = contents.at(Key::See) else {
        return Some(&[]);
    };
    let items = json.as_array()?;
    if are_sees(items.as_slice()) {
        Some(items.as_slice())
    } else {
        None
    }
}
