//! What stands for the constants and variables of the module of an instance.

ghost use Rattle.std.specs.Prelude.{◌≡◌, ◌∷◌, [], ◌++◌, IfOk, OnOk, Some, map, option_copied};
ghost use Rattle.reading_trees.specs.Trees.{Name};
ghost use Rattle.names_instances.specs.Instances.{brings, declares};
ghost use Rattle.names_whole_programs.specs.Given.{declared_by, declared_in, given_by, same_name, stands_for, substitute_if, substitutes_for, unit_has, units_have};

use base_core::{NoMemory, Place, Text};
use names_instances::{Substitute, Substitutes, copy_tree};
use names_scopes::Entry;
use reading_trees::{Declared, DeclaredNames, Expr, Made, Node, Unit, Units, Withs};
use std::alloc::Global;

/// What WITH gives for a name, if it gives something.
fn given_by<'a>(withs: &'a Withs, name: &Text) -> Option<&'a Expr>
    ensures { option_copied result ≡ given_by withs.now name.now }
{
    for with in withs.items() {
        if with.name == *name {
            return Some(&with.by);
        }
    }
    None
}

/// Whether a unit declares a name among these.
fn declares(names: &DeclaredNames, name: &Text) -> bool
    ensures { result ≡ declares names.now name.now }
{
    for declared in names.items() {
        if declared.name == *name {
            return true;
        }
    }
    false
}

/// Whether a unit declares or defines a name.
fn unit_has(unit: &Unit, name: &Text) -> bool
    ensures { result ≡ unit_has unit.now name.now }
{
    match unit {
        Unit::Variables(names) => declares(names, name),
        Unit::Constants(names) => declares(names, name),
        Unit::Define(definition) => definition.name == *name,
        Unit::Recursive(_) => false,
        Unit::Instance(_) => false,
        Unit::Assume(_) => false,
        Unit::Passed => false,
    }
}

/// Whether units declare or define a name.
fn units_have(units: &Units, name: &Text) -> bool
    ensures { result ≡ units_have units.now name.now }
{
    for unit in units.items() {
        if unit_has(unit, name) {
            return true;
        }
    }
    false
}

/// Whether standard modules bring a name.
fn brings(entries: &[Entry], name: &Text) -> bool
    ensures { result ≡ brings entries.now name.now }
{
    for entry in entries {
        if entry.name == *name {
            return true;
        }
    }
    false
}

/// The name at a place as an expression.
fn name_at(alloc: Global, at: Place, name: &Text) -> Result<Option<Expr>, NoMemory>
    ensures { IfOk result (λ e. e ≡ Some (Name at name.now)) }
{
    let name = name.copy()?;
    let tree = Expr::new(alloc, at, Node::Name(name))?;
    Ok(Some(tree))
}

/// The name itself at a place, where a program has it.
fn same_name(
    alloc: Global,
    units: &Units,
    standard: &[Entry],
    at: Place,
    name: &Text,
) -> Result<Option<Expr>, NoMemory>
    ensures { IfOk result (λ e. e ≡ same_name units.now standard.now at name.now) }
{
    if units_have(units, name) {
        return name_at(alloc, at, name);
    }
    if brings(standard, name) {
        return name_at(alloc, at, name);
    }
    Ok(None)
}

/// What stands for a name of the module of an instance.
fn stands_for(
    alloc: Global,
    units: &Units,
    standard: &[Entry],
    made: &Made,
    name: &Text,
) -> Result<Option<Expr>, NoMemory>
    ensures { IfOk result (λ e. e ≡ stands_for units.now standard.now made.now name.now) }
{
    match given_by(&made.withs, name) {
        Some(tree) => {
            let copy = copy_tree(alloc, tree)?;
            Ok(Some(copy))
        }
        None => same_name(alloc, units, standard, made.at, name),
    }
}

/// Adds what stands for one declared name, if something does.
fn add_substitute(
    alloc: Global,
    found: &mut Substitutes,
    units: &Units,
    standard: &[Entry],
    made: &Made,
    declared: &Declared,
) -> Result<(), NoMemory>
    ensures { OnOk result (found.new ≡ found.old ++ substitute_if declared.now.name (stands_for units.now standard.now made.now declared.now.name)) }
{
    let by = stands_for(alloc, units, standard, made, &declared.name)?;
    match by {
        Some(by) => {
            let name = declared.name.copy()?;
            found.push(Substitute { name, by })?;
            Ok(())
        }
        None => Ok(()),
    }
}

/// What stands for these constants and variables of the module of an instance.
pub(crate) fn substitutes_for(
    alloc: Global,
    units: &Units,
    standard: &[Entry],
    made: &Made,
    declared: &[&Declared],
) -> Result<Substitutes, NoMemory>
    ensures { IfOk result (λ ss. ss ≡ substitutes_for units.now standard.now made.now (map (λ d. d.now) declared.now)) }
{
    let mut found = Substitutes::new(alloc);
    for one in declared {
        add_substitute(alloc, &mut found, units, standard, made, one)?;
    }
    Ok(found)
}

/// Adds declared names behind others.
fn add_names<'a>(found: &mut Vec<&'a Declared>, names: &'a DeclaredNames) -> Result<(), NoMemory>
    ensures { OnOk result (map (λ d. d.now) found.new.items ≡ map (λ d. d.now) found.old.items ++ names.now) }
{
    for name in names.items() {
        found.push(name)?;
    }
    Ok(())
}

/// Adds the constants or variables of a unit behind others.
fn add_declared<'a>(found: &mut Vec<&'a Declared>, unit: &'a Unit) -> Result<(), NoMemory>
    ensures { OnOk result (map (λ d. d.now) found.new.items ≡ map (λ d. d.now) found.old.items ++ declared_by unit.now) }
{
    match unit {
        Unit::Variables(names) => add_names(found, names),
        Unit::Constants(names) => add_names(found, names),
        Unit::Define(_) => Ok(()),
        Unit::Recursive(_) => Ok(()),
        Unit::Instance(_) => Ok(()),
        Unit::Assume(_) => Ok(()),
        Unit::Passed => Ok(()),
    }
}

/// The constants and variables that units declare, in the order of the text.
pub(crate) fn declared_in(alloc: Global, units: &Units) -> Result<Vec<&Declared>, NoMemory>
    ensures { IfOk result (λ ds. map (λ d. d.now) ds.items ≡ declared_in units.now) }
{
    let mut found = Vec::new(alloc);
    for unit in units.items() {
        add_declared(&mut found, unit)?;
    }
    Ok(found)
}
