//! Names that are declared twice.

ghost use Rattle.std.specs.Prelude.{◌≡◌, IfOk, MatchOption, List, [], ◌∷◌, ◌++◌, OnOk};
ghost use Rattle.reading_trees.specs.declared.module.Declared.{Declared};
ghost use Rattle.reading_modules.specs.Twice.{declared_as, declared_by, declared_in, stands, AllAreNew, AreNew, AreNewInside, OneRepeats, Repeats, RepeatsInside};
ghost use Rattle.reading_modules.specs.Known.{Knows};

use crate::fault::LoadWhy;
use crate::standard::is_brought;
use base_core::{Names, NoMemory, Place, Text};
use reading_trees::{Declared, DeclaredNames, Instance, Instances, Unit, Units};
use std::alloc::Global;
use std::collections::HashMap;

/// Adds a declared name.
fn add(names: &mut DeclaredNames, name: &Text, at: Place) -> Result<(), NoMemory>
    ensures { OnOk result (names.new ≡ names.old ++ declared_as name.now at ∷ []) }
{
    names.push(Declared {
        name: name.copy()?,
        at,
    })
}

/// Adds the names of declarations.
fn add_all(names: &mut DeclaredNames, more: &[Declared]) -> Result<(), NoMemory>
    ensures { OnOk result (names.new ≡ names.old ++ more.now) }
{
    for declared in more {
        add(names, &declared.name, declared.at)?;
    }
    Ok(())
}

/// Adds the names that a unit declares.
fn add_unit(names: &mut DeclaredNames, unit: &Unit) -> Result<(), NoMemory>
    ensures { OnOk result (names.new ≡ names.old ++ declared_by unit.now) }
{
    match unit {
        Unit::Variables(more) => add_all(names, more.items()),
        Unit::Constants(more) => add_all(names, more.items()),
        Unit::Define(definition) => add(names, &definition.name, definition.at),
        Unit::Assume(_) => Ok(()),
        Unit::Recursive(_) => Ok(()),
        Unit::Instance(made) => add(names, &made.name, made.at),
        Unit::Passed => Ok(()),
    }
}

/// The names that units declare.
fn declared_in(alloc: Global, units: &Units) -> Result<DeclaredNames, NoMemory>
    ensures { IfOk result (λ names. names ≡ declared_in units.now) }
{
    let mut names = DeclaredNames::new(alloc);
    for unit in units.items() {
        add_unit(&mut names, unit)?;
    }
    Ok(names)
}

/// Where a name stands before, beside those that are known with their places.
fn stands(standard: &[Text], known: &HashMap<Text, Place>, name: &Text) -> Option<Option<Place>>
    ensures { (before : List Declared) → Knows known.now before → result ≡ stands standard.now before name.now }
{
    if is_brought(standard, name) {
        return Some(None);
    }
    match known.get(name) {
        Some(at) => Some(Some(*at)),
        None => None,
    }
}

/// The refusal of the first of these names that is not new, if there is one.
fn first_of(
    alloc: Global,
    standard: &[Text],
    names: &[Declared],
) -> Result<Option<LoadWhy>, NoMemory>
    ensures { IfOk result (λ o. MatchOption o (AreNew standard.now [] names.now) (Repeats standard.now names.now)) }
{
    let mut known = HashMap::new(alloc);
    for declared in names {
        if let Some(earlier) = stands(standard, &known, &declared.name) {
            let name = declared.name.copy()?;
            return Ok(Some(LoadWhy::Twice(name, declared.at, earlier)));
        }
        known.insert(declared.name.copy()?, declared.at)?;
    }
    Ok(None)
}

/// The refusal of the first name that units declare twice, or that one of the standard modules brings, if there is one.
fn repeated(alloc: Global, standard: &Names, units: &Units) -> Result<Option<LoadWhy>, NoMemory>
    ensures { IfOk result (λ o. MatchOption o (AreNew standard.now [] (declared_in units.now)) (Repeats standard.now (declared_in units.now))) }
{
    let names = declared_in(alloc, units)?;
    first_of(alloc, standard.items(), names.items())
}

/// The refusal of the first name that is declared twice in the program of one of these instances, if there is one.
fn repeated_inside(alloc: Global, instances: &[Instance]) -> Result<Option<LoadWhy>, NoMemory>
    ensures { IfOk result (λ o. MatchOption o (AreNewInside instances.now) (RepeatsInside instances.now)) }
{
    for instance in instances {
        let program = &instance.program;
        if let Some(why) = repeated(alloc, &program.standard, &program.units)? {
            return Ok(Some(why));
        }
    }
    Ok(None)
}

/// The refusal of the first name that is declared twice in a program, or else in that of one of its instances, if there is one.
pub fn first_repeated(
    alloc: Global,
    standard: &Names,
    units: &Units,
    instances: &Instances,
) -> Result<Option<LoadWhy>, NoMemory>
    ensures { IfOk result (λ o. MatchOption o (AllAreNew standard.now units.now instances.now) (OneRepeats standard.now units.now instances.now)) }
{
    match repeated(alloc, standard, units)? {
        Some(why) => Ok(Some(why)),
        None => repeated_inside(alloc, instances.items()),
    }
}
