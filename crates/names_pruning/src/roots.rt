//! The definitions that names are looked up as.

ghost use Rattle.std.specs.Prelude.{◌≡◌, ◌↔◌, ◌<◌, ◌++◌, ℕ, All, Contains, IfOk, OnOk, Some, length, map, option_map};
ghost use Rattle.std.specs.Option.{option_to_list};
ghost use Rattle.names_program.specs.Names.{index_among, names_defined};
ghost use Rattle.names_pruning.specs.Needed.{names_given, names_replaced, needed_names};
ghost use Rattle.names_pruning.specs.Parts.{IsNamedAt};

use base_core::{Names, NoMemory, Text};
use names_program::definition_index;
use reading_trees::{Config, Definition, Given, GivenAt};
use std::alloc::Global;

/// Adds the index of the definition that has the name, if there is one.
fn add_root(
    found: &mut Vec<usize>,
    definitions: &[&Definition],
    root: &Text,
) -> Result<(), NoMemory>
    ensures { OnOk result (found.new.items ≡ found.old.items ++ option_to_list (index_among (names_defined (map (λ d. d.now) definitions.now)) root.now)) }
{
    match definition_index(definitions, root) {
        Some(index) => {
            found.push(index)?;
            Ok(())
        }
        None => Ok(()),
    }
}

/// The indices of the definitions that have these names.
pub(crate) fn roots_of(
    alloc: Global,
    definitions: &[&Definition],
    roots: &[Text],
) -> Result<Vec<usize>, NoMemory>
    ensures within { IfOk result (λ found. All (λ i. i < length definitions.now) found.items) }
    ensures exact { IfOk result (λ found. (i : ℕ) → Contains found.items i ↔ IsNamedAt (map (λ d. d.now) definitions.now) roots.now i) }
{
    let mut found = Vec::new(alloc);
    for root in roots {
        add_root(&mut found, definitions, root)?;
    }
    Ok(found)
}

/// Adds a name, if there is one.
fn add_if(found: &mut Names, name: Option<&Text>) -> Result<(), NoMemory>
    ensures { OnOk result (found.new ≡ found.old ++ option_to_list (option_map (λ n. n.now) name.entry)) }
{
    match name {
        Some(name) => {
            let name = name.copy()?;
            found.push(name)?;
            Ok(())
        }
        None => Ok(()),
    }
}

/// Adds the names on both sides, where something is put in place of a name.
fn add_given(found: &mut Names, given: &GivenAt) -> Result<(), NoMemory>
    ensures { OnOk result (found.new ≡ found.old ++ names_given given.now.name given.now.given) }
{
    match &given.given {
        Given::Constant(_) => Ok(()),
        Given::Replaced(name, _) => {
            let left = given.name.copy()?;
            let right = name.copy()?;
            found.push(left)?;
            found.push(right)?;
            Ok(())
        }
    }
}

/// Adds the names on both sides of what is put in place of a name.
fn add_replaced(found: &mut Names, givens: &[GivenAt]) -> Result<(), NoMemory>
    ensures { OnOk result (found.new ≡ found.old ++ names_replaced givens.now) }
{
    for given in givens {
        add_given(found, given)?;
    }
    Ok(())
}

/// The names that a run needs: those behind INIT, NEXT and SPECIFICATION, that of the steps without a line, and those of what the configuration
/// puts in place of a name, on both sides.
pub fn needed_names(
    alloc: Global,
    config: &Config,
    silent: Option<&Text>,
) -> Result<Names, NoMemory>
    ensures { IfOk result (λ names. names ≡ needed_names config.now (option_map (λ n. n.now) silent.entry)) }
{
    let mut found = Names::new(alloc);
    add_if(&mut found, config.init.as_ref())?;
    add_if(&mut found, config.next.as_ref())?;
    add_if(&mut found, config.specification.as_ref())?;
    add_if(&mut found, silent)?;
    add_replaced(&mut found, config.givens.items())?;
    Ok(found)
}
