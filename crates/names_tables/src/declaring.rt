//! What is wrong with the operators that RECURSIVE declares: each must be defined, with as many parameters.

ghost use Rattle.std.specs.Prelude.{◌≡◌, IfOk, Some, map, slice_get};
ghost use Rattle.names_meanings.specs.declared.fault.NameFault.TheVariants.{UnknownName};
ghost use Rattle.names_program.specs.Names.{index_among, names_defined};
ghost use Rattle.names_tables.specs.NameFaults.{declared_complaint, declared_complaints, params_complaint};

use base_core::NoMemory;
use names_meanings::NameFault;
use names_program::definition_index;
use reading_trees::{DeclaredOperator, DeclaredOperators, Definition};

/// An operator that is declared and not defined.
fn undefined(operator: &DeclaredOperator) -> Result<Option<NameFault>, NoMemory>
    ensures { IfOk result (λ o. o ≡ Some (UnknownName operator.now.name operator.now.at)) }
{
    let name = operator.name.copy()?;
    Ok(Some(NameFault::UnknownName(name, operator.at)))
}

/// What is wrong with an operator that is declared and its definition.
fn params_fault(
    operator: &DeclaredOperator,
    definition: &Definition,
) -> Result<Option<NameFault>, NoMemory>
    ensures { IfOk result (λ o. o ≡ params_complaint operator.now (Some definition.now)) }
{
    let needed = definition.params.len();
    if operator.parameters == needed {
        return Ok(None);
    }
    let name = operator.name.copy()?;
    Ok(Some(NameFault::WrongArity(name, operator.parameters, needed, operator.at)))
}

/// The same where the definition stands at that index.
fn fault_at(
    definitions: &[&Definition],
    operator: &DeclaredOperator,
    index: usize,
) -> Result<Option<NameFault>, NoMemory>
    ensures { IfOk result (λ o. o ≡ params_complaint operator.now (slice_get (map (λ d. d.now) definitions.now) index)) }
{
    match definitions.get(index) {
        Some(definition) => params_fault(operator, definition),
        None => undefined(operator),
    }
}

/// What is wrong with an operator that is declared.
fn operator_fault(
    definitions: &[&Definition],
    operator: &DeclaredOperator,
) -> Result<Option<NameFault>, NoMemory>
    ensures { IfOk result (λ o. o ≡ declared_complaint (map (λ d. d.now) definitions.now) operator.now (index_among (names_defined (map (λ d. d.now) definitions.now)) operator.now.name)) }
{
    match definition_index(definitions, &operator.name) {
        Some(index) => fault_at(definitions, operator, index),
        None => undefined(operator),
    }
}

/// The first thing that is wrong with the operators that are declared, in their order.
pub(crate) fn declared_fault(
    definitions: &[&Definition],
    operators: &DeclaredOperators,
) -> Result<Option<NameFault>, NoMemory>
    ensures { IfOk result (λ o. o ≡ declared_complaints (map (λ d. d.now) definitions.now) operators.now) }
{
    for operator in operators.items() {
        let found = operator_fault(definitions, operator)?;
        match found {
            Some(fault) => return Ok(Some(fault)),
            None => {}
        }
    }
    Ok(None)
}
