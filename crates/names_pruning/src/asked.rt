//! Which of the names that were not read are needed.

ghost use Rattle.std.specs.Prelude.{◌≡◌, ◌≤◌, ◌↔◌, IfOk, IsTrue, MatchOption, length, map};
ghost use Rattle.names_program.specs.InUnits.{variables_in};
ghost use Rattle.names_pruning.specs.Parts.{AsksSome, IsAskedBy, IsFirstBy, NoneIsBy, asks_at, asks_for};
ghost use Rattle.names_pruning.specs.Pruning.{IsFirstAsked, NoneIsAsked};

use crate::over::is_set_at;
use crate::program::names_of;
use crate::reach::needed_definitions;
use base_core::{NoMemory, Text};
use names_program::definitions;
use names_scopes::{is_one_of, mentions};
use reading_trees::{Config, Definition, Program};
use std::alloc::Global;

/// Whether the name is free in the definition, and none of its parameters.
fn asks_for(definition: &Definition, name: &Text) -> bool
    ensures { result ≡ asks_for definition.now name.now }
{
    !is_one_of(name, definition.params.items()) && mentions(name, &definition.body)
}

/// Whether the definition of that index is needed, and asks for the name.
fn asks_at(needed: &[bool], index: usize, definition: &Definition, name: &Text) -> bool
    ensures { result ≡ asks_at needed.now index definition.now name.now }
{
    is_set_at(needed, Some(index)) && asks_for(definition, name)
}

/// Whether a definition that is needed asks for the name.
fn some_asks(definitions: &[&Definition], needed: &[bool], name: &Text) -> bool
    ensures { IsTrue result ↔ AsksSome (map (λ d. d.now) definitions.now) needed.now name.now }
{
    for (index, definition) in definitions.iter().enumerate() {
        if asks_at(needed, index, definition, name) {
            return true;
        }
    }
    false
}

/// Whether the name is one of these, or free in a definition that is needed.
fn is_asked(definitions: &[&Definition], needed: &[bool], roots: &[Text], name: &Text) -> bool
    ensures { IsTrue result ↔ IsAskedBy (map (λ d. d.now) definitions.now) needed.now roots.now name.now }
{
    if is_one_of(name, roots) {
        return true;
    }
    some_asks(definitions, needed, name)
}

/// The index of the first of the unread names that is asked for.
fn first_of(
    definitions: &[&Definition],
    needed: &[bool],
    roots: &[Text],
    unread: &[Text],
) -> Option<usize>
    ensures { MatchOption result (NoneIsBy (map (λ d. d.now) definitions.now) needed.now roots.now unread.now) (λ k. IsFirstBy (map (λ d. d.now) definitions.now) needed.now roots.now unread.now k) }
{
    for (index, name) in unread.iter().enumerate() {
        if is_asked(definitions, needed, roots, name) {
            return Some(index);
        }
    }
    None
}

/// The index of the first of the names that were not read which is needed: it is one of these names, or free in what they define or in what that uses.
pub fn first_asked(
    alloc: Global,
    program: &Program,
    config: &Config,
    unread: &[Text],
    roots: &[Text],
) -> Result<Option<usize>, NoMemory>
    requires few { length (variables_in program.now.units) ≤ 64 }
    ensures exact { IfOk result (λ found. MatchOption found (NoneIsAsked program.now config.now unread.now roots.now) (λ k. IsFirstAsked program.now config.now unread.now roots.now k)) }
{
    let names = names_of(alloc, program, config)?;
    let needed = needed_definitions(alloc, program, config, &names, roots)?;
    let definitions = definitions(alloc, &program.units)?;
    Ok(first_of(&definitions, &needed, roots, unread))
}
