//! What the configuration gives for names.

ghost use Rattle.std.specs.Prelude.{◌≡◌, ◌++◌, IfOk, Some, None, map, slice_get, option_map};
ghost use Rattle.names_program.specs.InUnits.{definitions_in};
ghost use Rattle.names_program.specs.Names.{constant_index, definition_index, numbers_of};
ghost use Rattle.names_resolving.specs.Givens.{first_given_fault, fit_fault, given_fault, left_of, level_at, params_of, replaced_fault, right_fault, set_left, value_fault};
ghost use Rattle.names_resolving.specs.Standing.{AreDeclarations};
ghost use Rattle.reading_trees.specs.declared.module.Program.{Program as WholeProgram};

use crate::fault::ResolveFault;
use crate::finding::{Declarations, declared_index, operator_at};
use base_core::{NoMemory, Place, Text};
use names_program::definition_index;
use names_tables::Table;
use names_term_parts::is_above;
use names_terms::Level;
use reading_trees::{Given, GivenAt, Program};
use std::alloc::Global;

/// A name that can be replaced: how many arguments it takes, and its level.
#[derive(Clone, Copy, Drop)]
pub struct Left {
    pub needed: usize,
    pub level: Level,
}

/// The level of the definition of that index.
pub(crate) fn level_at(table: &Table, index: usize) -> Level
    ensures { result ≡ level_at (numbers_of table.now.numbers.items) table.now.operators index }
{
    match operator_at(table, index) {
        Some(operator) => operator.level,
        None => Level::Constant,
    }
}

/// How many parameters the definition of that index has.
fn params_of(program: &Program, declarations: &Declarations<'_>, index: usize) -> usize
    requires { AreDeclarations program.now declarations.now }
    ensures { result ≡ params_of program.now index }
{
    match declarations.definitions.get(index) {
        Some(definition) => definition.params.len(),
        None => 0,
    }
}

/// What a set takes that can be replaced.
fn set_left(name: &Text) -> Option<Left>
    ensures { result ≡ set_left name.now }
{
    let level = Level::Constant;
    if "Seq" == name.as_str() {
        return Some(Left { needed: 1, level });
    }
    if "Nat" == name.as_str() {
        return Some(Left { needed: 0, level });
    }
    if "Int" == name.as_str() {
        return Some(Left { needed: 0, level });
    }
    None
}

/// What a name takes that can be replaced, and its level.
fn left_of(
    program: &Program,
    declarations: &Declarations<'_>,
    table: &Table,
    name: &Text,
) -> Option<Left>
    requires { AreDeclarations program.now declarations.now }
    ensures { result ≡ left_of program.now (numbers_of table.now.numbers.items) table.now.operators name.now }
{
    if declared_index(&declarations.variables, name).is_some() {
        return None;
    }
    if declared_index(&declarations.constants, name).is_some() {
        return Some(Left {
            needed: 0,
            level: Level::Constant,
        });
    }
    match definition_index(&declarations.definitions, name) {
        Some(index) => Some(Left {
            needed: params_of(program, declarations, index),
            level: level_at(table, index),
        }),
        None => set_left(name),
    }
}

/// What is wrong with a definition of so many parameters and this level in place of a name.
fn fit_fault(
    left: Left,
    name: &Text,
    at: Place,
    found: usize,
    level: Level,
) -> Result<Option<ResolveFault>, NoMemory>
    ensures { IfOk result (λ o. o ≡ fit_fault left name.now at found level) }
{
    if found != left.needed {
        let name = name.copy()?;
        return Ok(Some(ResolveFault::WrongArity(name, found, left.needed, at)));
    }
    if is_above(level, left.level) {
        return Ok(Some(ResolveFault::LevelTooHigh(level, left.level, at)));
    }
    Ok(None)
}

/// What is wrong with the name on the right.
fn right_fault(
    program: &Program,
    declarations: &Declarations<'_>,
    table: &Table,
    left: Left,
    name: &Text,
    at: Place,
) -> Result<Option<ResolveFault>, NoMemory>
    requires { AreDeclarations program.now declarations.now }
    ensures { IfOk result (λ o. o ≡ right_fault program.now (numbers_of table.now.numbers.items) table.now.operators left name.now at (definition_index program.now name.now)) }
{
    match definition_index(&declarations.definitions, name) {
        None => Ok(Some(ResolveFault::UnknownName(name.copy()?, at))),
        Some(index) => {
            let found = params_of(program, declarations, index);
            fit_fault(left, name, at, found, level_at(table, index))
        }
    }
}

/// What is wrong with the names of `id <- id`.
fn replaced_fault(
    program: &Program,
    declarations: &Declarations<'_>,
    table: &Table,
    given: &GivenAt,
    name: &Text,
    at: Place,
) -> Result<Option<ResolveFault>, NoMemory>
    requires { AreDeclarations program.now declarations.now }
    ensures { let number = numbers_of table.now.numbers.items in IfOk result (λ o. o ≡ replaced_fault program.now number table.now.operators given.now name.now at (left_of program.now number table.now.operators given.now.name)) }
{
    match left_of(program, declarations, table, &given.name) {
        None => Ok(Some(ResolveFault::UnknownName(given.name.copy()?, given.at))),
        Some(left) => right_fault(program, declarations, table, left, name, at),
    }
}

/// What is wrong with the name of `id = value`.
fn value_fault(
    program: &Program,
    declarations: &Declarations<'_>,
    given: &GivenAt,
) -> Result<Option<ResolveFault>, NoMemory>
    requires { AreDeclarations program.now declarations.now }
    ensures { IfOk result (λ o. o ≡ value_fault given.now (constant_index program.now given.now.name)) }
{
    match declared_index(&declarations.constants, &given.name) {
        None => Ok(Some(ResolveFault::UnknownName(given.name.copy()?, given.at))),
        Some(_) => Ok(None),
    }
}

/// What is wrong with what is given for a name.
fn given_fault(
    program: &Program,
    declarations: &Declarations<'_>,
    table: &Table,
    given: &GivenAt,
) -> Result<Option<ResolveFault>, NoMemory>
    requires { AreDeclarations program.now declarations.now }
    ensures { IfOk result (λ o. o ≡ given_fault program.now (numbers_of table.now.numbers.items) table.now.operators given.now) }
{
    match &given.given {
        Given::Constant(_) => value_fault(program, declarations, given),
        Given::Replaced(name, at) => {
            replaced_fault(program, declarations, table, given, name, *at)
        }
    }
}

/// The first thing that is wrong with what is given, in the order of the text.
pub(crate) fn first_given_fault(
    program: &Program,
    declarations: &Declarations<'_>,
    table: &Table,
    givens: &[GivenAt],
) -> Result<Option<ResolveFault>, NoMemory>
    requires { AreDeclarations program.now declarations.now }
    ensures { IfOk result (λ o. o ≡ first_given_fault program.now (numbers_of table.now.numbers.items) table.now.operators givens.now) }
{
    for given in givens {
        let fault = given_fault(program, declarations, table, given)?;
        if fault.is_some() {
            return Ok(fault);
        }
    }
    Ok(None)
}
