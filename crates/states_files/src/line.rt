ghost use Rattle.std.specs.Prelude.{◌≡◌, IfOk};
ghost use Rattle.serde_json.specs.View.{members_view, view};
ghost use Rattle.states_files.specs.Fields.{fields_of};
ghost use Rattle.states_files.specs.Lines.{FieldsSay, StateLineSays, ObjectSays, StateSays, ValuesSay, is_shown};
ghost use Rattle.serde_json.specs.Find.{as_object};
ghost use Rattle.states_files.specs.Walks.{MembersSay};

use crate::fields::line_fields;
use crate::kind::{StateKind, StateLine};
use crate::values::{are_known, are_there, read_state};
use base_core::{NoMemory, Text};
use serde_json::{Map, Value as Json};
use states_core::{Mark, Shown};
use std::alloc::{AllocError, Global};

/// What a line of a file of states says, or the first of its refusals.
pub(crate) fn read_line(alloc: Global, names: &[Text], line: &[u8]) -> Result<StateLine, NoMemory>
    ensures { IfOk result (StateLineSays names.now line.now) }
{
    if !is_shown(line) {
        return Ok(StateLine::Skipped);
    }
    object_line(alloc, names, line)
}

/// Whether the line begins with `{`.
fn is_shown(line: &[u8]) -> bool
    ensures { result ≡ is_shown line.now }
{
    match line {
        [] => false,
        [first, ..] => *first == b'{',
    }
}

#[tactic(auto, using(crate::proofs::LineLemmas::object_said, crate::proofs::LineLemmas::not_json))]
fn object_line(alloc: Global, names: &[Text], line: &[u8]) -> Result<StateLine, NoMemory>
    ensures { IfOk result (ObjectSays names.now line.now) }
{
    match Json::from_slice(alloc, line) {
        Ok(json) => json_line(alloc, names, &json),
        Err(error) => if error.is_memory() {
            Err(AllocError)
        } else {
            Ok(StateLine::Refused(StateKind::NotJson))
        },
    }
}

fn json_line(alloc: Global, names: &[Text], json: &Json) -> Result<StateLine, NoMemory>
    ensures { IfOk result (MembersSay names.now (as_object (view json.now))) }
{
    match json.as_object() {
        Some(members) => members_line(alloc, names, members),
        None => Ok(StateLine::Refused(StateKind::NotJson)),
    }
}

fn members_line(
    alloc: Global,
    names: &[Text],
    members: &Map<String, Json>,
) -> Result<StateLine, NoMemory>
    ensures { IfOk result (FieldsSay names.now (fields_of (members_view members.now.entries))) }
{
    match line_fields(members) {
        Ok(fields) => state_line(alloc, names, fields.mark, fields.state),
        Err(key) => {
            let key = Text::from_text(alloc, key)?;
            Ok(StateLine::Refused(StateKind::BadField(key)))
        }
    }
}

fn state_line(
    alloc: Global,
    names: &[Text],
    mark: Mark,
    state: &Map<String, Json>,
) -> Result<StateLine, NoMemory>
    ensures { IfOk result (StateSays names.now mark (members_view state.now.entries)) }
{
    if !are_known(names, state) {
        return Ok(StateLine::Refused(StateKind::UnknownVariable));
    }
    if !are_there(names, state) {
        return Ok(StateLine::Refused(StateKind::MissingVariable));
    }
    values_line(alloc, names, mark, state)
}

fn values_line(
    alloc: Global,
    names: &[Text],
    mark: Mark,
    state: &Map<String, Json>,
) -> Result<StateLine, NoMemory>
    ensures { IfOk result (ValuesSay names.now mark (members_view state.now.entries)) }
{
    match read_state(alloc, names, state)? {
        Some(state) => Ok(StateLine::State(Shown { mark, state })),
        None => Ok(StateLine::Refused(StateKind::BadValue)),
    }
}
