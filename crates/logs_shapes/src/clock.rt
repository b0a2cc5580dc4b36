ghost use Rattle.std.specs.Prelude.{◌≡◌, None, Some, is_some, option_and_then, option_map};
ghost use Rattle.serde_json.specs.View.{members_view, view};
ghost use Rattle.logs_shapes.specs.Clocks.{clock_of, count_of, few_nodes, number_of, numbers_of, of_nodes, one};
ghost use Rattle.logs_shapes.specs.ClockSeen.{clock_seen};

use base_core::limits::MAX_NODES;
use serde_json::{Map, Value as Json};

/// What stands at the key of a clock: a whole number from 0, or an object with such a number of each node.
#[derive(Clone, Copy)]
pub enum RawClock<'a> {
    Number(i64),
    Nodes(&'a Map<String, Json>),
}

/// The clock that is written so, or none where something else is.
pub(crate) fn clock_of(json: &Json) -> Option<RawClock<'_>>
    ensures { option_map clock_seen result ≡ clock_of (view json.now) }
{
    match json.as_object() {
        Some(members) => nodes_in(members),
        None => number_in(json),
    }
}

/// The numbers of at most 64 nodes, or none where something else stands at one of them.
fn nodes_in(members: &Map<String, Json>) -> Option<RawClock<'_>>
    ensures { option_map clock_seen result ≡ option_map of_nodes (option_and_then few_nodes (numbers_of (members_view members.now.entries))) }
{
    if members.len() > MAX_NODES {
        return None;
    }
    if !are_numbers(members) {
        return None;
    }
    Some(RawClock::Nodes(members))
}

/// Whether a whole number from 0 stands at each key.
fn are_numbers(members: &Map<String, Json>) -> bool
    ensures { result ≡ is_some (numbers_of (members_view members.now.entries)) }
{
    for (_node, content) in members.iter() {
        if !is_count(content) {
            return false;
        }
    }
    true
}

fn is_count(json: &Json) -> bool
    ensures { result ≡ is_some (count_of (view json.now)) }
{
    match count_of(json) {
        Some(_) => true,
        None => false,
    }
}

fn number_in(json: &Json) -> Option<RawClock<'_>>
    ensures { option_map clock_seen result ≡ option_map one (number_of (view json.now)) }
{
    let number = number_of(json)?;
    Some(RawClock::Number(number))
}

/// The whole number from 0 that is written so.
fn number_of(json: &Json) -> Option<i64>
    ensures { result ≡ number_of (view json.now) }
{
    let number = json.as_i64()?;
    if number < 0 {
        return None;
    }
    Some(number)
}

/// The same as a count.
pub fn count_of(json: &Json) -> Option<u64>
    ensures { result ≡ count_of (view json.now) }
{
    let number = number_of(json)?;
    Some(number.unsigned_abs())
}
