//! The operators that a configuration and a run name.

ghost use Rattle.std.specs.Prelude.{◌≡◌, IfOk, option_map, option_copied};
ghost use Rattle.names_program.specs.Names.{definition_index, numbers_of};
ghost use Rattle.names_resolving.specs.Configured.{first_too_high, first_without_operator, level_named, missing, operator_for, operator_named, too_high};
ghost use Rattle.names_resolving.specs.Standing.{AreDeclarations};

use crate::fault::ResolveFault;
use crate::finding::{Declarations, operator_at};
use crate::givens::level_at;
use base_core::{NoMemory, Text};
use names_program::definition_index;
use names_tables::Table;
use names_term_parts::is_above;
use names_terms::{Level, Operator};
use reading_trees::{Config, Definition, Program};
use std::alloc::Global;

/// The definition without parameters that has the name.
pub(crate) fn operator_named<'a>(
    program: &Program,
    declarations: &Declarations<'a>,
    name: &Text,
) -> Option<&'a Definition>
    requires { AreDeclarations program.now declarations.now }
    ensures { option_map (λ d. d.now) result ≡ operator_named program.now name.now }
{
    match definition_index(&declarations.definitions, name) {
        Some(index) => match declarations.definitions.get(index) {
            Some(definition) => {
                if definition.params.len() == 0 {
                    return Some(*definition);
                }
                None
            }
            None => None,
        },
        None => None,
    }
}

/// The name, if it is there and no definition without parameters has it.
fn missing(
    program: &Program,
    declarations: &Declarations<'_>,
    name: Option<&Text>,
) -> Result<Option<Text>, NoMemory>
    requires { AreDeclarations program.now declarations.now }
    ensures { IfOk result (λ o. o ≡ missing program.now (option_map (λ n. n.now) name.entry)) }
{
    match name {
        Some(name) => match operator_named(program, declarations, name) {
            Some(_) => Ok(None),
            None => Ok(Some(name.copy()?)),
        },
        None => Ok(None),
    }
}

/// The first of the names that no definition without parameters has.
pub(crate) fn first_without_operator(
    program: &Program,
    declarations: &Declarations<'_>,
    config: &Config,
    silent: Option<&Text>,
) -> Result<Option<Text>, NoMemory>
    requires { AreDeclarations program.now declarations.now }
    ensures { IfOk result (λ o. o ≡ first_without_operator program.now config.now (option_map (λ n. n.now) silent.entry)) }
{
    let init = missing(program, declarations, config.init.as_ref())?;
    if init.is_some() {
        return Ok(init);
    }
    let next = missing(program, declarations, config.next.as_ref())?;
    if next.is_some() {
        return Ok(next);
    }
    let specification = missing(program, declarations, config.specification.as_ref())?;
    if specification.is_some() {
        return Ok(specification);
    }
    missing(program, declarations, silent)
}

/// The row of the definition of that name.
pub(crate) fn operator_for<'a>(
    program: &Program,
    declarations: &Declarations<'_>,
    table: &'a Table,
    name: &Text,
) -> Option<&'a Operator>
    requires { AreDeclarations program.now declarations.now }
    ensures { option_copied result ≡ operator_for program.now (numbers_of table.now.numbers.items) table.now.operators name.now }
{
    match definition_index(&declarations.definitions, name) {
        Some(index) => operator_at(table, index),
        None => None,
    }
}

/// The level of the definition of that name.
fn level_named(
    program: &Program,
    declarations: &Declarations<'_>,
    table: &Table,
    name: &Text,
) -> Level
    requires { AreDeclarations program.now declarations.now }
    ensures { result ≡ level_named (numbers_of table.now.numbers.items) table.now.operators (definition_index program.now name.now) }
{
    match definition_index(&declarations.definitions, name) {
        Some(index) => level_at(table, index),
        None => Level::State,
    }
}

/// What is wrong with the level of the operator of that name.
fn too_high(
    program: &Program,
    declarations: &Declarations<'_>,
    table: &Table,
    limit: Level,
    name: Option<&Text>,
) -> Option<ResolveFault>
    requires { AreDeclarations program.now declarations.now }
    ensures { result ≡ too_high program.now (numbers_of table.now.numbers.items) table.now.operators limit (option_map (λ n. n.now) name.entry) }
{
    match name {
        Some(name) => match operator_named(program, declarations, name) {
            Some(definition) => {
                let found = level_named(program, declarations, table, name);
                if is_above(found, limit) {
                    return Some(ResolveFault::LevelTooHigh(found, limit, definition.at));
                }
                None
            }
            None => None,
        },
        None => None,
    }
}

/// The first of the operators of INIT, NEXT and the steps without a line whose level is too high.
pub(crate) fn first_too_high(
    program: &Program,
    declarations: &Declarations<'_>,
    config: &Config,
    silent: Option<&Text>,
    table: &Table,
) -> Option<ResolveFault>
    requires { AreDeclarations program.now declarations.now }
    ensures { result ≡ first_too_high program.now config.now (option_map (λ n. n.now) silent.entry) (numbers_of table.now.numbers.items) table.now.operators }
{
    let init = too_high(
        program,
        declarations,
        table,
        Level::State,
        config.init.as_ref(),
    );
    if init.is_some() {
        return init;
    }
    let next = too_high(
        program,
        declarations,
        table,
        Level::Action,
        config.next.as_ref(),
    );
    if next.is_some() {
        return next;
    }
    too_high(program, declarations, table, Level::Action, silent)
}
