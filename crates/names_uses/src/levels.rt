//! Which definitions of a program are above level 0.

ghost use Rattle.std.specs.Prelude.{◌≡◌, IfOk, List};
ghost use Rattle.values_core.specs.Data.{Val};
ghost use Rattle.names_program.specs.Names.{AreNames, by_index};
ghost use Rattle.names_program.specs.Recursion.{AreLevelsOf};
ghost use Rattle.names_uses.specs.ToldLevels.{told_meant, told_names};

use base_core::NoMemory;
use names_found_levels::levels_of;
use names_least_levels::{NameLevel, Told};
use names_program::definitions;
use names_scopes::{Meant, ProgramNames};
use reading_trees::{Config, Program};
use std::alloc::Global;

/// When what is meant is above level 0.
fn told_meant(meant: &Meant) -> Told
    ensures { result ≡ told_meant meant.now }
{
    match meant {
        Meant::Variable(_) => Told::Above,
        Meant::Definition(number) => Told::OfDefinition(number.0),
        Meant::Slot(_) => Told::Constant,
        Meant::Known(_) => Told::Constant,
        Meant::Set(_) => Told::Constant,
        Meant::Standard(_) => Told::Constant,
    }
}

/// The names of the program, each with when it is above level 0.
fn told_names(alloc: Global, names: &ProgramNames) -> Result<Vec<NameLevel>, NoMemory>
    ensures { IfOk result (λ ws. ws.items ≡ told_names names.now) }
{
    let mut levels = Vec::new(alloc);
    for entry in names.items() {
        let name = entry.name.copy()?;
        let told = told_meant(&entry.is.meant);
        levels.push(NameLevel { name, told })?;
    }
    Ok(levels)
}

/// For each definition, by its index, whether it is above level 0 in the least levels of the program. The names tell definitions by their indices.
/// They are raised in this order of indices first, which is any: where what a definition uses stands before it, the first turn finds its level.
pub fn definition_levels(
    alloc: Global,
    program: &Program,
    config: &Config,
    names: &ProgramNames,
    order: &[usize],
) -> Result<Vec<bool>, NoMemory>
    requires are { (values : List Val) × AreNames program.now config.now values by_index names.now }
    ensures { IfOk result (λ marks. AreLevelsOf program.now config.now marks.items) }
{
    let definitions = definitions(alloc, &program.units)?;
    let told = told_names(alloc, names)?;
    let marks = levels_of(alloc, &told, &definitions, order)?;
    Ok(marks)
}
