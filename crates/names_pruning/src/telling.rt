//! What is told of units that are passed over.

ghost use Rattle.std.specs.Prelude.{◌≡◌, ◌∷◌, ◌++◌, [], IfOk, OnOk};
ghost use Rattle.reading_trees.specs.Trees.{place_of};
ghost use Rattle.names_pruning.specs.Told.{told};

use base_core::{NoMemory, Place, Text};
use reading_trees::{Definition, Expr, Unit, Units};
use std::alloc::Global;

/// A unit that is passed over.
#[derive(Drop)]
pub enum PassedOver {
    /// A definition, by its name and the place of it.
    Definition(Text, Place),
    /// What is assumed, by its place.
    Assumption(Place),
}

/// The place of a tree.
fn place_of(tree: &Expr) -> Place
    ensures { result ≡ place_of tree.now }
{
    tree.at
}

/// Adds a definition.
fn add_definition(found: &mut Vec<PassedOver>, definition: &Definition) -> Result<(), NoMemory>
    ensures { OnOk result (found.new.items ≡ found.old.items ++ PassedOver.Definition definition.now.name definition.now.at ∷ []) }
{
    let name = definition.name.copy()?;
    found.push(PassedOver::Definition(name, definition.at))?;
    Ok(())
}

/// Adds what is assumed.
fn add_assumption(found: &mut Vec<PassedOver>, tree: &Expr) -> Result<(), NoMemory>
    ensures { OnOk result (found.new.items ≡ found.old.items ++ PassedOver.Assumption (place_of tree.now) ∷ []) }
{
    found.push(PassedOver::Assumption(place_of(tree)))?;
    Ok(())
}

/// Adds a unit.
fn add_told(found: &mut Vec<PassedOver>, unit: &Unit) -> Result<(), NoMemory>
    ensures { OnOk result (found.new.items ≡ found.old.items ++ told (unit.now ∷ [])) }
{
    match unit {
        Unit::Define(definition) => add_definition(found, definition),
        Unit::Assume(tree) => add_assumption(found, tree),
        Unit::Variables(_) => Ok(()),
        Unit::Constants(_) => Ok(()),
        Unit::Recursive(_) => Ok(()),
        Unit::Instance(_) => Ok(()),
        Unit::Passed => Ok(()),
    }
}

/// What is told of these units, in their order: of each definition its name and the place of it, of what is assumed its place.
pub fn told(alloc: Global, units: &Units) -> Result<Vec<PassedOver>, NoMemory>
    ensures { IfOk result (λ found. found.items ≡ told units.now) }
{
    let mut found = Vec::new(alloc);
    for unit in units.items() {
        add_told(&mut found, unit)?;
    }
    Ok(found)
}
