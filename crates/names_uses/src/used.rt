//! Which definitions of a program use which.

ghost use Rattle.std.specs.Prelude.{◌≡◌, ◌++◌, ◌↔◌, ℕ, IfOk, OnOk, List, length, map};
ghost use Rattle.values_core.specs.Data.{Val};
ghost use Rattle.names_program.specs.InUnits.{definitions_in};
ghost use Rattle.names_program.specs.Names.{AreNames, by_index};
ghost use Rattle.names_program.specs.Uses.{LeadsTo, UsesDefinition};
ghost use Rattle.names_scopes.specs.Scopes.{among};
ghost use Rattle.names_uses.specs.UsedNames.{AreUsed, IsUsed, number_in, number_of, used_as};
ghost use Rattle.base_use_order.specs.Uses.{IsWithin, Leads, Uses, table_of};

use base_core::{NoMemory, Text};
use names_free::free_names;
use names_program::definitions;
use names_scopes::{Meant, ProgramNames, is_one_of};
use reading_trees::{Config, Definition, Program};
use std::alloc::Global;

/// The number of the definition that is meant.
fn number_of(meant: &Meant) -> Option<usize>
    ensures { result ≡ number_of meant.now }
{
    match meant {
        Meant::Definition(number) => Some(number.0),
        Meant::Slot(_) => None,
        Meant::Variable(_) => None,
        Meant::Known(_) => None,
        Meant::Set(_) => None,
        Meant::Standard(_) => None,
    }
}

/// The definition that a name means, if it means one.
pub fn definition_of(names: &ProgramNames, name: &Text) -> Option<usize>
    ensures { result ≡ number_in (among names.now name.now) }
{
    match names.get(name) {
        Some(entry) => number_of(&entry.is.meant),
        None => None,
    }
}

/// Adds what the definition uses by the name.
fn add(
    found: &mut Vec<usize>,
    names: &ProgramNames,
    definition: &Definition,
    name: &Text,
) -> Result<(), NoMemory>
    ensures { OnOk result (found.new.items ≡ found.old.items ++ used_as definition.now name.now (number_in (among names.now name.now))) }
{
    match definition_of(names, name) {
        Some(number) => {
            if is_one_of(name, definition.params.items()) {
                return Ok(());
            }
            found.push(number)?;
            Ok(())
        }
        None => Ok(()),
    }
}

/// What the definition uses.
fn used_in(
    alloc: Global,
    names: &ProgramNames,
    definition: &Definition,
) -> Result<Vec<usize>, NoMemory>
    ensures { IfOk result (λ js. IsUsed names.now definition.now js.items) }
{
    let free = free_names(alloc, &definition.body)?;
    let mut found = Vec::new(alloc);
    for name in free.items() {
        add(&mut found, names, definition, name)?;
    }
    Ok(found)
}

/// What each of the definitions uses.
fn used_in_each(
    alloc: Global,
    names: &ProgramNames,
    definitions: &[&Definition],
) -> Result<Vec<Vec<usize>>, NoMemory>
    ensures { IfOk result (λ us. AreUsed names.now (map (λ d. d.now) definitions.now) (table_of us.items)) }
{
    let mut uses = Vec::new(alloc);
    for definition in definitions {
        let used = used_in(alloc, names, definition)?;
        uses.push(used)?;
    }
    Ok(uses)
}

/// For each definition, by its index, the indices of the definitions that it uses. One that it uses several times stands there several times.
pub fn uses(
    alloc: Global,
    program: &Program,
    config: &Config,
    names: &ProgramNames,
) -> Result<Vec<Vec<usize>>, NoMemory>
    requires are { (values : List Val) × AreNames program.now config.now values by_index names.now }
    ensures each { IfOk result (λ us. length us.items ≡ length (definitions_in program.now.units)) }
    ensures within { IfOk result (λ us. IsWithin (table_of us.items)) }
    ensures exact { IfOk result (λ us. (i j : ℕ) → Uses (table_of us.items) i j ↔ UsesDefinition program.now config.now i j) }
    ensures leads { IfOk result (λ us. (i j : ℕ) → Leads (table_of us.items) i j ↔ LeadsTo program.now config.now i j) }
{
    let definitions = definitions(alloc, &program.units)?;
    let uses = used_in_each(alloc, names, &definitions)?;
    Ok(uses)
}
