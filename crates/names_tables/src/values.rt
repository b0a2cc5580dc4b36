//! The values of constants.

ghost use Rattle.std.specs.Prelude.{◌≡◌, IfOk, MatchOption, Some, option_map, slice_get};
ghost use Rattle.values_core.specs.Data.{Val};
ghost use Rattle.reading_trees.specs.Literals.{lit_of};
ghost use Rattle.names_literals.specs.Spells.{IsValueOf};
ghost use Rattle.names_program.specs.InUnits.{variables_in};
ghost use Rattle.names_program.specs.Names.{given_for};
ghost use Rattle.names_tables.specs.Values.{AreSpelled, AreValues, HasAllValues, IsFirstWithoutValue, IsGiven, IsSpelled};

use base_core::{NoMemory, Text};
use names_literals::literal_value;
use names_program::{constants, variables};
use reading_trees::{Config, Declared, Given, GivenAt, Literal, Program};
use std::alloc::Global;
use values_core::Value;

/// What is given for a name.
fn given_for<'a>(givens: &'a [GivenAt], name: &Text) -> Option<&'a Given>
    ensures { option_map (λ g. g.now) result ≡ given_for givens.now name.now }
{
    for given in givens {
        if given.name == *name {
            return Some(&given.given);
        }
    }
    None
}

/// The value that a literal spells.
fn spelled_value(alloc: Global, literal: &Literal) -> Result<Value, NoMemory>
    requires { (v : Val) × IsValueOf (lit_of literal.now) v }
    ensures { IfOk result (IsValueOf (lit_of literal.now)) }
{
    let found = literal_value(alloc, literal)?;
    match found {
        Some(value) => Ok(value),
        None => unreachable!(),
    }
}

/// The value that is given, or FALSE where something else is.
fn value_given(alloc: Global, given: &Given) -> Result<Value, NoMemory>
    requires { IsSpelled (Some given.now) }
    ensures { IfOk result (IsGiven (Some given.now)) }
{
    match given {
        Given::Constant(literal) => spelled_value(alloc, literal),
        Given::Replaced(_, _) => Ok(Value::boolean(false)),
    }
}

/// The value that is given, or FALSE where none is.
fn value_of(alloc: Global, given: Option<&Given>) -> Result<Value, NoMemory>
    requires { IsSpelled (option_map (λ g. g.now) given) }
    ensures { IfOk result (IsGiven (option_map (λ g. g.now) given.entry)) }
{
    match given {
        Some(given) => value_given(alloc, given),
        None => Ok(Value::boolean(false)),
    }
}

/// A value for each constant, in the order of their declaration: that which the configuration spells. Where it spells none the value says nothing.
pub fn constant_values(
    alloc: Global,
    program: &Program,
    config: &Config,
) -> Result<Vec<Value>, NoMemory>
    requires { AreSpelled config.now.givens }
    ensures { IfOk result (λ vs. AreValues program.now config.now vs.items) }
{
    let givens = config.givens.items();
    let declared = constants(alloc, &program.units)?;
    let mut values = Vec::new(alloc);
    for constant in &declared {
        let given = given_for(givens, &constant.name);
        let value = value_of(alloc, given)?;
        values.push(value)?;
    }
    Ok(values)
}

/// The first constant for which the configuration gives neither a value nor a definition.
pub fn first_without_value<'a>(
    alloc: Global,
    program: &'a Program,
    config: &Config,
) -> Result<Option<&'a Declared>, NoMemory>
    ensures { IfOk result (λ o. MatchOption o (HasAllValues program.now config.now) (λ d. IsFirstWithoutValue program.now config.now d.now)) }
{
    let givens = config.givens.items();
    let declared = constants(alloc, &program.units)?;
    for constant in &declared {
        match given_for(givens, &constant.name) {
            Some(_) => {}
            None => return Ok(Some(*constant)),
        }
    }
    Ok(None)
}

/// The first variable that is one too many: the 65th.
pub fn one_too_many<'a>(
    alloc: Global,
    program: &'a Program,
) -> Result<Option<&'a Declared>, NoMemory>
    ensures { IfOk result (λ o. option_map (λ d. d.now) o ≡ slice_get (variables_in program.now.units) 64) }
{
    let declared = variables(alloc, &program.units)?;
    match declared.get(64) {
        Some(variable) => Ok(Some(*variable)),
        None => Ok(None),
    }
}
