//! Equal units of their own.

ghost use Rattle.std.specs.Prelude.{◌≡◌, IfOk};

use base_core::{Names, NoMemory};
use names_instances::copy_tree;
use reading_trees::{
    Declared, DeclaredNames, DeclaredOperator, DeclaredOperators, Definition, Made, Unit, With,
    Withs,
};
use std::alloc::Global;

/// Equal names.
pub(crate) fn copy_names(alloc: Global, names: &Names) -> Result<Names, NoMemory>
    ensures { IfOk result (λ copy. copy ≡ names.now) }
{
    let mut copy = Names::new(alloc);
    for name in names.items() {
        copy.push(name.copy()?)?;
    }
    Ok(copy)
}

/// Equal declared names.
fn copy_declared(alloc: Global, names: &DeclaredNames) -> Result<DeclaredNames, NoMemory>
    ensures { IfOk result (λ copy. copy ≡ names.now) }
{
    let mut copy = DeclaredNames::new(alloc);
    for declared in names.items() {
        let name = declared.name.copy()?;
        let at = declared.at;
        copy.push(Declared { name, at })?;
    }
    Ok(copy)
}

/// Equal declared operators.
fn copy_operators(
    alloc: Global,
    operators: &DeclaredOperators,
) -> Result<DeclaredOperators, NoMemory>
    ensures { IfOk result (λ copy. copy ≡ operators.now) }
{
    let mut copy = DeclaredOperators::new(alloc);
    for operator in operators.items() {
        let name = operator.name.copy()?;
        let at = operator.at;
        let parameters = operator.parameters;
        copy.push(DeclaredOperator {
            name,
            at,
            parameters,
        })?;
    }
    Ok(copy)
}

/// The same that WITH gives.
fn copy_withs(alloc: Global, withs: &Withs) -> Result<Withs, NoMemory>
    ensures { IfOk result (λ copy. copy ≡ withs.now) }
{
    let mut copy = Withs::new(alloc);
    for with in withs.items() {
        let name = with.name.copy()?;
        let at = with.at;
        let by = copy_tree(alloc, &with.by)?;
        copy.push(With { name, at, by })?;
    }
    Ok(copy)
}

/// An equal definition.
fn copy_definition(alloc: Global, definition: &Definition) -> Result<Definition, NoMemory>
    ensures { IfOk result (λ copy. copy ≡ definition.now) }
{
    let name = definition.name.copy()?;
    let params = copy_names(alloc, &definition.params)?;
    let body = copy_tree(alloc, &definition.body)?;
    Ok(Definition {
        name,
        at: definition.at,
        params,
        form: definition.form,
        body,
    })
}

/// An equal unit of an instance.
fn copy_instance(alloc: Global, made: &Made) -> Result<Made, NoMemory>
    ensures { IfOk result (λ copy. copy ≡ made.now) }
{
    let name = made.name.copy()?;
    let module_name = made.module_name.copy()?;
    let withs = copy_withs(alloc, &made.withs)?;
    Ok(Made {
        name,
        at: made.at,
        module_name,
        withs,
    })
}

/// An equal unit.
pub(crate) fn copy_unit(alloc: Global, unit: &Unit) -> Result<Unit, NoMemory>
    ensures { IfOk result (λ copy. copy ≡ unit.now) }
{
    match unit {
        Unit::Variables(names) => Ok(Unit::Variables(copy_declared(alloc, names)?)),
        Unit::Constants(names) => Ok(Unit::Constants(copy_declared(alloc, names)?)),
        Unit::Recursive(operators) => Ok(Unit::Recursive(copy_operators(alloc, operators)?)),
        Unit::Define(definition) => Ok(Unit::Define(copy_definition(alloc, definition)?)),
        Unit::Instance(made) => Ok(Unit::Instance(copy_instance(alloc, made)?)),
        Unit::Assume(tree) => Ok(Unit::Assume(copy_tree(alloc, tree)?)),
        Unit::Passed => Ok(Unit::Passed),
    }
}
