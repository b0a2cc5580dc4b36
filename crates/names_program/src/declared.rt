//! What the units of a program declare, define and assume.

ghost use Rattle.std.specs.Prelude.{◌≡◌, [], ◌∷◌, ◌++◌, IfOk, OnOk, map};
ghost use Rattle.names_program.specs.InUnits.{variables_in, constants_in, definitions_in, assumptions_in};

use base_core::NoMemory;
use reading_trees::{Declared, DeclaredNames, Definition, Expr, Unit, Units};
use std::alloc::Global;

/// Adds declared names behind others.
fn add<'a>(found: &mut Vec<&'a Declared>, names: &'a DeclaredNames) -> Result<(), NoMemory>
    ensures { OnOk result (map (λ d. d.now) found.new.items ≡ map (λ d. d.now) found.old.items ++ names.now) }
{
    for name in names.items() {
        found.push(name)?;
    }
    Ok(())
}

/// Adds the variables of a unit behind others.
fn add_variables<'a>(found: &mut Vec<&'a Declared>, unit: &'a Unit) -> Result<(), NoMemory>
    ensures { OnOk result (map (λ d. d.now) found.new.items ≡ map (λ d. d.now) found.old.items ++ variables_in (unit.now ∷ [])) }
{
    match unit {
        Unit::Variables(names) => add(found, names),
        Unit::Constants(_) => Ok(()),
        Unit::Define(_) => Ok(()),
        Unit::Assume(_) => Ok(()),
        Unit::Recursive(_) => Ok(()),
        Unit::Instance(_) => Ok(()),
        Unit::Passed => Ok(()),
    }
}

/// The variables, in the order of the text.
pub fn variables(alloc: Global, units: &Units) -> Result<Vec<&Declared>, NoMemory>
    ensures { IfOk result (λ ds. map (λ d. d.now) ds.items ≡ variables_in units.now) }
{
    let mut found = Vec::new(alloc);
    for unit in units.items() {
        add_variables(&mut found, unit)?;
    }
    Ok(found)
}

/// Adds the constants of a unit behind others.
fn add_constants<'a>(found: &mut Vec<&'a Declared>, unit: &'a Unit) -> Result<(), NoMemory>
    ensures { OnOk result (map (λ d. d.now) found.new.items ≡ map (λ d. d.now) found.old.items ++ constants_in (unit.now ∷ [])) }
{
    match unit {
        Unit::Constants(names) => add(found, names),
        Unit::Variables(_) => Ok(()),
        Unit::Define(_) => Ok(()),
        Unit::Assume(_) => Ok(()),
        Unit::Recursive(_) => Ok(()),
        Unit::Instance(_) => Ok(()),
        Unit::Passed => Ok(()),
    }
}

/// The constants, in the order of the text.
pub fn constants(alloc: Global, units: &Units) -> Result<Vec<&Declared>, NoMemory>
    ensures { IfOk result (λ ds. map (λ d. d.now) ds.items ≡ constants_in units.now) }
{
    let mut found = Vec::new(alloc);
    for unit in units.items() {
        add_constants(&mut found, unit)?;
    }
    Ok(found)
}

/// Adds a definition behind others.
fn add_one<'a>(found: &mut Vec<&'a Definition>, definition: &'a Definition) -> Result<(), NoMemory>
    ensures { OnOk result (map (λ d. d.now) found.new.items ≡ map (λ d. d.now) found.old.items ++ definition.now ∷ []) }
{
    found.push(definition)?;
    Ok(())
}

/// Adds the definition of a unit behind others.
fn add_definition<'a>(found: &mut Vec<&'a Definition>, unit: &'a Unit) -> Result<(), NoMemory>
    ensures { OnOk result (map (λ d. d.now) found.new.items ≡ map (λ d. d.now) found.old.items ++ definitions_in (unit.now ∷ [])) }
{
    match unit {
        Unit::Define(definition) => add_one(found, definition),
        Unit::Variables(_) => Ok(()),
        Unit::Constants(_) => Ok(()),
        Unit::Assume(_) => Ok(()),
        Unit::Recursive(_) => Ok(()),
        Unit::Instance(_) => Ok(()),
        Unit::Passed => Ok(()),
    }
}

/// The definitions, in the order of the text.
pub fn definitions(alloc: Global, units: &Units) -> Result<Vec<&Definition>, NoMemory>
    ensures { IfOk result (λ ds. map (λ d. d.now) ds.items ≡ definitions_in units.now) }
{
    let mut found = Vec::new(alloc);
    for unit in units.items() {
        add_definition(&mut found, unit)?;
    }
    Ok(found)
}

/// Adds an expression behind others.
fn add_tree<'a>(found: &mut Vec<&'a Expr>, tree: &'a Expr) -> Result<(), NoMemory>
    ensures { OnOk result (map (λ e. e.now) found.new.items ≡ map (λ e. e.now) found.old.items ++ tree.now ∷ []) }
{
    found.push(tree)?;
    Ok(())
}

/// Adds what is assumed of a unit behind others.
fn add_assumption<'a>(found: &mut Vec<&'a Expr>, unit: &'a Unit) -> Result<(), NoMemory>
    ensures { OnOk result (map (λ d. d.now) found.new.items ≡ map (λ d. d.now) found.old.items ++ assumptions_in (unit.now ∷ [])) }
{
    match unit {
        Unit::Assume(tree) => add_tree(found, tree),
        Unit::Variables(_) => Ok(()),
        Unit::Constants(_) => Ok(()),
        Unit::Define(_) => Ok(()),
        Unit::Recursive(_) => Ok(()),
        Unit::Instance(_) => Ok(()),
        Unit::Passed => Ok(()),
    }
}

/// What is assumed, in the order of the text.
pub fn assumptions(alloc: Global, units: &Units) -> Result<Vec<&Expr>, NoMemory>
    ensures { IfOk result (λ ds. map (λ d. d.now) ds.items ≡ assumptions_in units.now) }
{
    let mut found = Vec::new(alloc);
    for unit in units.items() {
        add_assumption(&mut found, unit)?;
    }
    Ok(found)
}
