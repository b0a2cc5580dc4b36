ghost use Rattle.std.specs.Prelude.{◌≡◌, ◌≤◌, IfOk, is_some, length};
ghost use Rattle.std.specs.List.{list_all};
ghost use Rattle.serde_json.specs.View.{items_view, view};
ghost use Rattle.values_json.specs.Reads.{Finds, ReadsEach};
ghost use Rattle.logs_shapes.specs.Parts.{see_of, update_of};
ghost use Rattle.logs_shapes.specs.Seen.{path_seen, see_seen, update_seen};
ghost use Rattle.logs_lines.specs.Values.{EachItem, ItemReads, PathReads, SeeReads, UpdateReads, is_known_see, is_known_update};

use crate::names::SpecNames;
use crate::values::{read_keys, read_op};
use base_core::NoMemory;
use logs_shapes::{RawPath, RawSee, RawUpdate, see_of, update_of};
use logs_updates::{Path, See, Sees, Update, Updates};
use serde_json::Value as Json;
use states_core::VarId;
use std::alloc::Global;
use values_json::from_json;

/// The path with the values of its keys, or none where one of them is no value. The first variable
/// stands in for a name that is no variable's.
fn read_path<N: SpecNames>(
    alloc: Global,
    names: &N,
    raw: &RawPath,
    guess: usize,
) -> Result<Option<Path>, NoMemory>
    ensures { IfOk result (Finds (PathReads (N.setting names.now) (path_seen raw.now))) }
{
    let variable = names.variable(raw.name, guess).unwrap_or(VarId(0));
    match raw.keys {
        [] => Ok(Some(Path::whole(variable))),
        keys => keyed_path(alloc, variable, keys),
    }
}

/// The path of a variable with the values of the keys, or none where one of them is no value.
fn keyed_path(alloc: Global, variable: VarId, keys: &[Json]) -> Result<Option<Path>, NoMemory>
    requires { length keys.now ≤ 32 }
    ensures { IfOk result (Finds (λ path. (path.variable ≡ variable) × ReadsEach (items_view keys.now) path.keys)) }
{
    match read_keys(alloc, keys)? {
        Some(keys) => {
            let path = Path::new(alloc, variable, keys)?;
            Ok(Some(path))
        }
        None => Ok(None),
    }
}

fn read_update<N: SpecNames>(
    alloc: Global,
    names: &N,
    raw: &RawUpdate,
    guess: usize,
) -> Result<Option<Update>, NoMemory>
    ensures { IfOk result (Finds (UpdateReads (N.setting names.now) (update_seen raw.now))) }
{
    let path = raw.path;
    let Some(path) = read_path(alloc, names, &path, guess)? else {
        return Ok(None);
    };
    match read_op(alloc, raw.word, raw.contents)? {
        Some(op) => Ok(Some(Update { path, op })),
        None => Ok(None),
    }
}

fn read_see<N: SpecNames>(
    alloc: Global,
    names: &N,
    raw: &RawSee,
    guess: usize,
) -> Result<Option<See>, NoMemory>
    ensures { IfOk result (Finds (SeeReads (N.setting names.now) (see_seen raw.now))) }
{
    let path = raw.path;
    let Some(path) = read_path(alloc, names, &path, guess)? else {
        return Ok(None);
    };
    match from_json(alloc, raw.content)? {
        Some(value) => Ok(Some(See { path, value })),
        None => Ok(None),
    }
}

fn update_at<N: SpecNames>(
    alloc: Global,
    names: &N,
    json: &Json,
    guess: usize,
) -> Result<Option<Update>, NoMemory>
    ensures { IfOk result (Finds (ItemReads update_of (UpdateReads (N.setting names.now)) (view json.now))) }
{
    match update_of(json) {
        Some(raw) => read_update(alloc, names, &raw, guess),
        None => Ok(None),
    }
}

fn see_at<N: SpecNames>(
    alloc: Global,
    names: &N,
    json: &Json,
    guess: usize,
) -> Result<Option<See>, NoMemory>
    ensures { IfOk result (Finds (ItemReads see_of (SeeReads (N.setting names.now)) (view json.now))) }
{
    match see_of(json) {
        Some(raw) => read_see(alloc, names, &raw, guess),
        None => Ok(None),
    }
}

/// The updates with their values, or none where a part of one is no value.
pub(crate) fn read_updates<N: SpecNames>(
    alloc: Global,
    names: &N,
    items: &[Json],
) -> Result<Option<Updates>, NoMemory>
    ensures { IfOk result (Finds (EachItem update_of (UpdateReads (N.setting names.now)) (items_view items.now))) }
{
    let mut updates = Updates::with_capacity(alloc, items.len())?;
    let mut behind = 0;
    for item in items {
        match update_at(alloc, names, item, behind)? {
            Some(update) => {
                behind = usize::from(update.path.variable().0) + 1;
                updates.push(update)?;
            }
            None => return Ok(None),
        }
    }
    Ok(Some(updates))
}

/// What is seen with its values, or none where a part of it is no value.
pub(crate) fn read_sees<N: SpecNames>(
    alloc: Global,
    names: &N,
    items: &[Json],
) -> Result<Option<Sees>, NoMemory>
    ensures { IfOk result (Finds (EachItem see_of (SeeReads (N.setting names.now)) (items_view items.now))) }
{
    let mut sees = Sees::with_capacity(alloc, items.len())?;
    let mut behind = 0;
    for item in items {
        match see_at(alloc, names, item, behind)? {
            Some(see) => {
                behind = usize::from(see.path.variable().0) + 1;
                sees.push(see)?;
            }
            None => return Ok(None),
        }
    }
    Ok(Some(sees))
}

/// Whether each of the updates begins with a variable's name.
pub(crate) fn are_known_updates<N: SpecNames>(names: &N, items: &[Json]) -> bool
    ensures { result ≡ list_all (λ json. is_known_update (N.setting names.now) (view json)) items.now }
{
    let mut behind = 0;
    for item in items {
        match known_update(names, item, behind) {
            Some(next) => behind = next,
            None => return false,
        }
    }
    true
}

/// Whether each of what is seen begins with a variable's name.
pub(crate) fn are_known_sees<N: SpecNames>(names: &N, items: &[Json]) -> bool
    ensures { result ≡ list_all (λ json. is_known_see (N.setting names.now) (view json)) items.now }
{
    let mut behind = 0;
    for item in items {
        match known_see(names, item, behind) {
            Some(next) => behind = next,
            None => return false,
        }
    }
    true
}

/// The number to try behind this update, or none where it begins with no variable's name.
fn known_update<N: SpecNames>(names: &N, json: &Json, guess: usize) -> Option<usize>
    ensures { is_some result ≡ is_known_update (N.setting names.now) (view json.now) }
{
    match update_of(json) {
        Some(raw) => known_path(names, &raw.path, guess),
        None => Some(guess),
    }
}

fn known_see<N: SpecNames>(names: &N, json: &Json, guess: usize) -> Option<usize>
    ensures { is_some result ≡ is_known_see (N.setting names.now) (view json.now) }
{
    match see_of(json) {
        Some(raw) => known_path(names, &raw.path, guess),
        None => Some(guess),
    }
}

fn known_path<N: SpecNames>(names: &N, raw: &RawPath, guess: usize) -> Option<usize>
    ensures { is_some result ≡ is_some ((N.setting names.now).variable (path_seen raw.now).name) }
{
    match names.variable(raw.name, guess) {
        Some(variable) => Some(usize::from(variable.0) + 1),
        None => None,
    }
}
