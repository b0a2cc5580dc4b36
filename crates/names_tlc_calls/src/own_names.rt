//! The names that a program has itself.

ghost use Rattle.std.specs.Prelude.{◌≡◌, ◌++◌, IfOk, OnOk};
ghost use Rattle.names_program.specs.Names.{names_declared};
ghost use Rattle.names_tlc_calls.specs.Programs.{given_names, operator_names, own_names, unit_names, units_names};

use crate::bound_names::BoundNames;
use base_core::{NoMemory, Text};
use reading_trees::{Config, Declared, DeclaredOperator, GivenAt, Program, Unit};
use std::alloc::Global;

/// Adds declared names.
fn push_declared(names: &mut BoundNames, declared: &[Declared]) -> Result<(), NoMemory>
    ensures { OnOk result (names.new ≡ names.old ++ names_declared declared.now) }
{
    for item in declared {
        names.push(&item.name)?;
    }
    Ok(())
}

/// Adds the names of declared operators.
fn push_operators(names: &mut BoundNames, operators: &[DeclaredOperator]) -> Result<(), NoMemory>
    ensures { OnOk result (names.new ≡ names.old ++ operator_names operators.now) }
{
    for operator in operators {
        names.push(&operator.name)?;
    }
    Ok(())
}

/// Adds the names that a unit declares or defines.
fn push_unit(names: &mut BoundNames, unit: &Unit) -> Result<(), NoMemory>
    ensures { OnOk result (names.new ≡ names.old ++ unit_names unit.now) }
{
    match unit {
        Unit::Variables(declared) => push_declared(names, declared.items()),
        Unit::Constants(declared) => push_declared(names, declared.items()),
        Unit::Recursive(operators) => push_operators(names, operators.items()),
        Unit::Define(definition) => names.push(&definition.name),
        Unit::Instance(made) => names.push(&made.name),
        Unit::Assume(_) => Ok(()),
        Unit::Passed => Ok(()),
    }
}

/// Adds the names that units declare or define.
fn push_units(names: &mut BoundNames, units: &[Unit]) -> Result<(), NoMemory>
    ensures { OnOk result (names.new ≡ names.old ++ units_names units.now) }
{
    for unit in units {
        push_unit(names, unit)?;
    }
    Ok(())
}

/// Adds the names that a configuration gives something for.
fn push_givens(names: &mut BoundNames, givens: &[GivenAt]) -> Result<(), NoMemory>
    ensures { OnOk result (names.new ≡ names.old ++ given_names givens.now) }
{
    for given in givens {
        names.push(&given.name)?;
    }
    Ok(())
}

/// The names that the program has itself: those that its units declare or define, those that the configuration gives something for, and these of pieces
/// that were not read.
pub(crate) fn own_names(
    alloc: Global,
    program: &Program,
    config: &Config,
    unread: &[Text],
) -> Result<BoundNames, NoMemory>
    ensures { IfOk result (λ names. names ≡ own_names program.now config.now unread.now) }
{
    let mut names = BoundNames::new(alloc);
    push_units(&mut names, program.units.items())?;
    push_givens(&mut names, config.givens.items())?;
    names.push_all(unread)?;
    Ok(names)
}
