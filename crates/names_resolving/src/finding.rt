//! What a program declares, and where it stands.

ghost use Rattle.std.specs.Prelude.{◌≡◌, ◌<◌, ℕ, IfOk, Some, length, map, option_copied, slice_get};
ghost use Rattle.names_program.specs.InUnits.{definitions_in};
ghost use Rattle.names_program.specs.Names.{index_among, names_declared, numbers_of};
ghost use Rattle.names_resolving.specs.Givens.{operator_at};
ghost use Rattle.names_resolving.specs.Standing.{AreDeclarations};

use base_core::{NoMemory, Text};
use names_program::{constants, definition_index, definitions, variables};
use names_tables::Table;
use names_terms::{Level, Operator};
use reading_trees::{Declared, Definition, Program, Units};
use std::alloc::Global;

/// What a program declares and defines, in the order of the text.
#[derive(Drop)]
pub(crate) struct Declarations<'a> {
    pub variables: Vec<&'a Declared>,
    pub constants: Vec<&'a Declared>,
    pub definitions: Vec<&'a Definition>,
}

/// The declarations of a program.
pub(crate) fn declared_in(alloc: Global, program: &Program) -> Result<Declarations<'_>, NoMemory>
    ensures { IfOk result (AreDeclarations program.now) }
{
    Ok(Declarations {
        variables: variables(alloc, &program.units)?,
        constants: constants(alloc, &program.units)?,
        definitions: definitions(alloc, &program.units)?,
    })
}

/// Where the first of that name is declared, from 0.
pub(crate) fn declared_index(declared: &[&Declared], name: &Text) -> Option<usize>
    ensures { result ≡ index_among (names_declared (map (λ d. d.now) declared.now)) name.now }
{
    for (index, one) in declared.iter().enumerate() {
        if one.name == *name {
            return Some(index);
        }
    }
    None
}

/// The definition of that index in the table, if it has a number there.
pub(crate) fn operator_at(table: &Table, index: usize) -> Option<&Operator>
    ensures { option_copied result ≡ operator_at (numbers_of table.now.numbers.items) table.now.operators index }
{
    match table.numbers.get(index) {
        Some(Some(number)) => table.operators.get(*number),
        Some(None) => None,
        None => None,
    }
}
