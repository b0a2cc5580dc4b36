ghost use Rattle.std.specs.Prelude.{◌≡◌, is_some, option_map};
ghost use Rattle.std.specs.List.{list_all};
ghost use Rattle.serde_json.specs.View.{items_view, view};
ghost use Rattle.logs_shapes.specs.Parts.{see_in, see_of, update_behind, update_in, update_of};
ghost use Rattle.logs_shapes.specs.Seen.{see_seen, update_seen};

use crate::key::Word;
use crate::path::path_of;
use crate::raw::{RawSee, RawUpdate};
use serde_json::Value as Json;

/// The operation that is written so, or none where it has not the shape of one.
pub fn update_of(json: &Json) -> Option<RawUpdate<'_>>
    ensures { option_map update_seen result ≡ update_of (view json.now) }
{
    match json {
        Json::Array(items) => update_in(items.as_slice()),
        _ => None,
    }
}

fn update_in(items: &[Json]) -> Option<RawUpdate<'_>>
    ensures { option_map update_seen result ≡ update_in (items_view items.now) }
{
    let (first, rest) = items.split_first()?;
    let name = first.as_str()?;
    let word = Word::named(name)?;
    update_behind(word, rest)
}

fn update_behind(word: Word, items: &[Json]) -> Option<RawUpdate<'_>>
    ensures { option_map update_seen result ≡ update_behind word (items_view items.now) }
{
    let (first, contents) = items.split_first()?;
    let path = path_of(first)?;
    if contents.len() != word.contents() {
        return None;
    }
    Some(RawUpdate {
        word,
        path,
        contents,
    })
}

/// What is seen at a path, or none where it is no pair of a path and a content.
pub fn see_of(json: &Json) -> Option<RawSee<'_>>
    ensures { option_map see_seen result ≡ see_of (view json.now) }
{
    match json {
        Json::Array(items) => see_in(items.as_slice()),
        _ => None,
    }
}

fn see_in(items: &[Json]) -> Option<RawSee<'_>>
    ensures { option_map see_seen result ≡ see_in (items_view items.now) }
{
    if items.len() != 2 {
        return None;
    }
    let path = path_of(&items[0])?;
    Some(RawSee {
        path,
        content: &items[1],
    })
}

/// Whether each of them is an operation.
pub(crate) fn are_updates(items: &[Json]) -> bool
    ensures { result ≡ list_all (λ json. is_some (update_of (view json))) items.now }
{
    items.iter().all(|item| is_update(item))
}

fn is_update(json: &Json) -> bool
    ensures { result ≡ is_some (update_of (view json.now)) }
{
    match update_of(json) {
        Some(_) => true,
        None => false,
    }
}

/// Whether each of them is a pair of a path and a content.
pub(crate) fn are_sees(items: &[Json]) -> bool
    ensures { result ≡ list_all (λ json. is_some (see_of (view json))) items.now }
{
    items.iter().all(|item| is_see(item))
}

fn is_see(json: &Json) -> bool
    ensures { result ≡ is_some (see_of (view json.now)) }
{
    match see_of(json) {
        Some(_) => true,
        None => false,
    }
}
