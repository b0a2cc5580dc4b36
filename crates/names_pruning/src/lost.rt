//! Definitions that lack something: they have a name that means nothing, or that only what was not read declares.

ghost use Rattle.std.specs.Prelude.{◌≡◌, ◌↔◌, ◌<◌, ℕ, All, Contains, IfOk, IsTrue, length, map};
ghost use Rattle.std.specs.List.{list_any};
ghost use Rattle.names_pruning.specs.Parts.{LacksAt, Lacks, LosesName, is_lost, is_lost_in};

use base_core::{NoMemory, Text};
use names_free::free_names;
use names_scopes::{ProgramNames, is_one_of};
use reading_trees::{Definition, Expr};
use std::alloc::Global;

/// Whether the name means nothing, or is among those that were not read.
pub(crate) fn is_lost(names: &ProgramNames, unread: &[Text], name: &Text) -> bool
    ensures { result ≡ is_lost names.now unread.now name.now }
{
    is_one_of(name, unread) || names.get(name).is_none()
}

/// Whether the name is lost, and none of the parameters.
fn is_lost_in(names: &ProgramNames, unread: &[Text], params: &[Text], name: &Text) -> bool
    ensures { result ≡ is_lost_in names.now unread.now params.now name.now }
{
    !is_one_of(name, params) && is_lost(names, unread, name)
}

/// Whether one of the names is lost, and none of the parameters.
fn some_lost(names: &ProgramNames, unread: &[Text], params: &[Text], free: &[Text]) -> bool
    ensures { result ≡ list_any (is_lost_in names.now unread.now params.now) free.now }
{
    for name in free {
        if is_lost_in(names, unread, params, name) {
            return true;
        }
    }
    false
}

/// Whether a lost name is free in the tree, and none of the parameters.
fn loses_name(
    alloc: Global,
    names: &ProgramNames,
    unread: &[Text],
    params: &[Text],
    tree: &Expr,
) -> Result<bool, NoMemory>
    ensures { IfOk result (λ b. IsTrue b ↔ LosesName names.now unread.now params.now tree.now) }
{
    let free = free_names(alloc, tree)?;
    Ok(some_lost(names, unread, params, free.items()))
}

/// Whether the definition has a lost name in its text, or is named by one that was not read.
fn lacks(
    alloc: Global,
    names: &ProgramNames,
    unread: &[Text],
    definition: &Definition,
) -> Result<bool, NoMemory>
    ensures { IfOk result (λ b. IsTrue b ↔ Lacks names.now unread.now definition.now) }
{
    if is_one_of(&definition.name, unread) {
        return Ok(true);
    }
    loses_name(
        alloc,
        names,
        unread,
        definition.params.items(),
        &definition.body,
    )
}

/// The indices of the definitions that lack something.
pub(crate) fn lacking(
    alloc: Global,
    names: &ProgramNames,
    unread: &[Text],
    definitions: &[&Definition],
) -> Result<Vec<usize>, NoMemory>
    ensures within { IfOk result (λ found. All (λ i. i < length definitions.now) found.items) }
    ensures exact { IfOk result (λ found. (i : ℕ) → Contains found.items i ↔ LacksAt names.now unread.now (map (λ d. d.now) definitions.now) i) }
{
    let mut found = Vec::new(alloc);
    for (index, definition) in definitions.iter().enumerate() {
        if lacks(alloc, names, unread, definition)? {
            found.push(index)?;
        }
    }
    Ok(found)
}
