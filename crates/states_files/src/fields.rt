ghost use Rattle.std.specs.Prelude.{◌≡◌, IfErr, IfOk, Err, Ok, option_map};
ghost use Rattle.serde_json.specs.View.{members_view};
ghost use Rattle.states_files.specs.Fields.{fields_of, is_key, mark_at, number_at, other_key, placeless, state_at, step_at};
ghost use Rattle.states_files.specs.Seen.{fields_seen};
ghost use Rattle.states_files.specs.declared.step.StepKind.TheVariants as steps;

use crate::members::{content, is_there};
use crate::step::StepKind;
use base_core::LineAt;
use serde_json::{Map, Value as Json};
use states_core::Mark;

/// How a state was reached, and the object of its values, borrowed from a line's JSON.
#[derive(Clone, Copy)]
pub(crate) struct Fields<'a> {
    pub(crate) mark: Mark,
    pub(crate) state: &'a Map<String, Json>,
}

/// The fields of a line with these members, or the first key at which it is not as it should be.
pub(crate) fn line_fields(members: &Map<String, Json>) -> Result<Fields<'_>, &str>
    ensures fields { IfOk result (λ f. fields_of (members_view members.now.entries) ≡ Ok (fields_seen f)) }
    ensures key { IfErr result (λ key. fields_of (members_view members.now.entries) ≡ Err key.now) }
{
    let Some(state) = state_at(members) else {
        return Err("state");
    };
    let Some(step) = step_at(members) else {
        return Err("step");
    };
    match mark_at(step, members) {
        Err(key) => Err(key),
        Ok(mark) => match other_key(members) {
            Some(key) => Err(key),
            None => Ok(Fields { mark, state }),
        },
    }
}

fn state_at(members: &Map<String, Json>) -> Option<&Map<String, Json>>
    ensures { option_map (λ state. members_view state.now.entries) result ≡ state_at (members_view members.now.entries) }
{
    let json = content(members, "state")?;
    json.as_object()
}

fn step_at(members: &Map<String, Json>) -> Option<StepKind>
    ensures { result ≡ step_at (members_view members.now.entries) }
{
    let json = content(members, "step")?;
    let name = json.as_str()?;
    StepKind::named(name)
}

/// How a state was reached by this step, or the key at which that is not told.
fn mark_at(step: StepKind, members: &Map<String, Json>) -> Result<Mark, &'static str>
    ensures mark { IfOk result (λ mark. mark_at step (members_view members.now.entries) ≡ Ok mark) }
    ensures key { IfErr result (λ key. mark_at step (members_view members.now.entries) ≡ Err key.now) }
{
    match step {
        StepKind::Init => placeless(members, Mark::Init),
        StepKind::Silent => placeless(members, Mark::Silent),
        StepKind::Line => placed(members),
    }
}

/// This mark, unless a place stands beside it.
fn placeless(members: &Map<String, Json>, mark: Mark) -> Result<Mark, &'static str>
    ensures mark { IfOk result (λ found. placeless (members_view members.now.entries) mark ≡ Ok found) }
    ensures key { IfErr result (λ key. placeless (members_view members.now.entries) mark ≡ Err key.now) }
{
    if is_there(members, "file") {
        return Err("file");
    }
    if is_there(members, "line") {
        return Err("line");
    }
    Ok(mark)
}

/// The mark of a step that a line shows.
fn placed(members: &Map<String, Json>) -> Result<Mark, &'static str>
    ensures mark { IfOk result (λ mark. mark_at steps.Line (members_view members.now.entries) ≡ Ok mark) }
    ensures key { IfErr result (λ key. mark_at steps.Line (members_view members.now.entries) ≡ Err key.now) }
{
    let Some(file) = number_at(members, "file") else {
        return Err("file");
    };
    let Some(line) = number_at(members, "line") else {
        return Err("line");
    };
    Ok(Mark::Line(LineAt { file, line }))
}

/// The number of 32 bits at the key.
fn number_at(members: &Map<String, Json>, key: &str) -> Option<u32>
    ensures { result ≡ number_at key.now (members_view members.now.entries) }
{
    let json = content(members, key)?;
    let number = json.as_u64()?;
    if number > u32::MAX as u64 {
        return None;
    }
    Some(number as u32)
}

/// The first key beyond the four.
fn other_key(members: &Map<String, Json>) -> Option<&str>
    ensures { option_map (λ key. key.now) result ≡ other_key (members_view members.now.entries) }
{
    for (key, _content) in members.iter() {
        if !is_key(key.as_str()) {
            return Some(key.as_str());
        }
    }
    None
}

fn is_key(key: &str) -> bool
    ensures { result ≡ is_key key.now }
{
    key == "state" || key == "step" || key == "file" || key == "line"
}
