//! The units of an instance.

ghost use Rattle.std.specs.Prelude.{◌≡◌, ◌++◌, IfOk, OnOk, Some, map};
ghost use Rattle.names_instances.specs.Instances.{constant_made, constants_made, definition_made, instance_units, operators_made, substitute_for, unit_made, units_made};
ghost use Rattle.names_instances.specs.Renamed.{renamed};

use crate::bound_names::BoundNames;
use crate::copies::copy_tree;
use crate::making::{copy_names, made_body};
use crate::renaming::{InstanceNames, Renaming};
use crate::substitutes::Substitutes;
use base_core::{Names, NoMemory, Text};
use names_program::{brought, constants, variables};
use reading_trees::{
    Declared, DeclaredOperator, DeclaredOperators, Definition, DefinitionForm, Expr, Program, Unit,
    Units, qualified,
};
use std::alloc::Global;

/// The units of the instance of a module under a name: what defines its constants, and its definitions and declared operators, each under the name of the
/// instance, `!` and its own.
pub fn instantiate(
    alloc: Global,
    name: &Text,
    module: &Program,
    with: &Substitutes,
) -> Result<Units, NoMemory>
    ensures { IfOk result (λ units. units ≡ instance_units name.now module.now with.now) }
{
    let mut units = Units::new(alloc);
    let constants = constants(alloc, &module.units)?;
    add_constants(alloc, &mut units, name, &constants, with)?;
    let renaming = Renaming::Instance(InstanceNames {
        instance: name,
        variables: variables(alloc, &module.units)?,
        units: &module.units,
        with,
        standard: brought(alloc, &module.standard)?,
    });
    add_units(alloc, &mut units, name, &renaming, &module.units)?;
    Ok(units)
}

/// Adds the definition of a constant by its substitute.
fn add_constant(
    alloc: Global,
    units: &mut Units,
    instance: &Text,
    constant: &Declared,
    substitute: &Expr,
) -> Result<(), NoMemory>
    ensures { OnOk result (units.new ≡ units.old ++ constant_made instance.now constant.now (Some substitute.now)) }
{
    let name = qualified(alloc, instance, &constant.name)?;
    let body = copy_tree(alloc, substitute)?;
    units.push(Unit::Define(Definition {
        name,
        at: constant.at,
        params: Names::new(alloc),
        form: DefinitionForm::Constant,
        body,
    }))
}

/// Adds the definition of a constant, if it has a substitute.
fn add_if_given(
    alloc: Global,
    units: &mut Units,
    instance: &Text,
    constant: &Declared,
    with: &Substitutes,
) -> Result<(), NoMemory>
    ensures { OnOk result (units.new ≡ units.old ++ constant_made instance.now constant.now (substitute_for with.now constant.now.name)) }
{
    match with.get(&constant.name) {
        Some(substitute) => add_constant(alloc, units, instance, constant, substitute),
        None => Ok(()),
    }
}

/// Adds the definitions of constants that have substitutes.
fn add_constants(
    alloc: Global,
    units: &mut Units,
    instance: &Text,
    constants: &[&Declared],
    with: &Substitutes,
) -> Result<(), NoMemory>
    ensures { OnOk result (units.new ≡ units.old ++ constants_made instance.now with.now (map (λ d. d.now) constants.now)) }
{
    for constant in constants {
        add_if_given(alloc, units, instance, constant, with)?;
    }
    Ok(())
}

/// A definition of the module under its name in the instance.
fn made_definition(
    alloc: Global,
    instance: &Text,
    renaming: &Renaming<'_>,
    definition: &Definition,
) -> Result<Definition, NoMemory>
    ensures { IfOk result (λ d. d ≡ definition_made instance.now (renamed renaming.now) definition.now) }
{
    let mut bound = BoundNames::new(alloc);
    let name = qualified(alloc, instance, &definition.name)?;
    let params = copy_names(alloc, &definition.params)?;
    let body = made_body(alloc, renaming, &mut bound, definition)?;
    Ok(Definition {
        name,
        at: definition.at,
        params,
        form: definition.form,
        body,
    })
}

/// Operators that the module declares, under their names in the instance.
fn made_operators(
    alloc: Global,
    instance: &Text,
    operators: &DeclaredOperators,
) -> Result<DeclaredOperators, NoMemory>
    ensures { IfOk result (λ rs. rs ≡ operators_made instance.now operators.now) }
{
    let mut made = DeclaredOperators::new(alloc);
    for operator in operators.items() {
        let name = qualified(alloc, instance, &operator.name)?;
        made.push(DeclaredOperator {
            name,
            at: operator.at,
            parameters: operator.parameters,
        })?;
    }
    Ok(made)
}

/// Adds what a unit of the module becomes.
fn add_unit(
    alloc: Global,
    units: &mut Units,
    instance: &Text,
    renaming: &Renaming<'_>,
    unit: &Unit,
) -> Result<(), NoMemory>
    ensures { OnOk result (units.new ≡ units.old ++ unit_made instance.now (renamed renaming.now) unit.now) }
{
    match unit {
        Unit::Define(definition) => {
            let made = made_definition(alloc, instance, renaming, definition)?;
            units.push(Unit::Define(made))
        }
        Unit::Recursive(operators) => {
            let made = made_operators(alloc, instance, operators)?;
            units.push(Unit::Recursive(made))
        }
        Unit::Variables(_) => Ok(()),
        Unit::Constants(_) => Ok(()),
        Unit::Instance(_) => Ok(()),
        Unit::Assume(_) => Ok(()),
        Unit::Passed => Ok(()),
    }
}

/// Adds what the units of the module become.
fn add_units(
    alloc: Global,
    units: &mut Units,
    instance: &Text,
    renaming: &Renaming<'_>,
    of_module: &Units,
) -> Result<(), NoMemory>
    ensures { OnOk result (units.new ≡ units.old ++ units_made instance.now (renamed renaming.now) of_module.now) }
{
    for unit in of_module.items() {
        add_unit(alloc, units, instance, renaming, unit)?;
    }
    Ok(())
}
