ghost use Rattle.std.specs.Prelude.{◌≡◌, IfOk, option_map};
ghost use Rattle.serde_json.specs.Find.{get_member};
ghost use Rattle.serde_json.specs.View.{members_view};
ghost use Rattle.values_json.specs.Reads.{Finds};
ghost use Rattle.states_files.specs.States.{ReadsAt, StateReads, are_known, are_there, is_among};

use crate::members::{content, is_there};
use base_core::{NoMemory, Text};
use serde_json::{Map, Value as Json};
use states_core::State;
use std::alloc::Global;
use values_core::Value;
use values_json::from_json;

/// Whether each key is a variable's name.
pub(crate) fn are_known(names: &[Text], state: &Map<String, Json>) -> bool
    ensures { result ≡ are_known names.now (members_view state.now.entries) }
{
    for (key, _content) in state.iter() {
        if !is_among(key.as_str(), names) {
            return false;
        }
    }
    true
}

fn is_among(name: &str, names: &[Text]) -> bool
    ensures { result ≡ is_among name.now names.now }
{
    names.iter().any(|other| other.as_str() == name)
}

/// Whether each variable's name is a key.
pub(crate) fn are_there(names: &[Text], state: &Map<String, Json>) -> bool
    ensures { result ≡ are_there names.now (members_view state.now.entries) }
{
    names.iter().all(|name| is_there(state, name.as_str()))
}

/// The state whose values stand at the names, or none where one of them is no value.
pub(crate) fn read_state(
    alloc: Global,
    names: &[Text],
    state: &Map<String, Json>,
) -> Result<Option<State>, NoMemory>
    ensures { IfOk result (Finds (StateReads (members_view state.now.entries) names.now)) }
{
    let mut values = Vec::with_capacity(alloc, names.len())?;
    for name in names {
        match value_at(alloc, state, name.as_str())? {
            Some(value) => values.push(value)?,
            None => return Ok(None),
        }
    }
    Ok(Some(State::new(values)))
}

/// The value at the key, or none where there is none.
fn value_at(alloc: Global, state: &Map<String, Json>, key: &str) -> Result<Option<Value>, NoMemory>
    ensures { IfOk result (Finds (ReadsAt (get_member key.now (members_view state.now.entries)))) }
{
    match content(state, key) {
        Some(json) => from_json(alloc, json),
        None => Ok(None),
    }
}
