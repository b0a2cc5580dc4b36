//! Uses of definitions that are not allowed.

ghost use Rattle.std.specs.Prelude.{◌≡◌, [], ◌∷◌, ◌++◌, ◌↔◌, ℕ, false, IfOk, OnOk, List, length, map};
ghost use Rattle.std.specs.List.{slice_index_or};
ghost use Rattle.values_core.specs.Data.{Val};
ghost use Rattle.names_program.specs.InUnits.{definitions_in, recursive_in};
ghost use Rattle.names_program.specs.Names.{AreNames, by_index};
ghost use Rattle.names_program.specs.Recursion.{LeadsStrictly, UsesStrictly, operators_declared};
ghost use Rattle.names_scopes.specs.Mentions.{is_one_of};
ghost use Rattle.names_scopes.specs.Scopes.{among};
ghost use Rattle.names_uses.specs.StrictNames.{AreStrict, IsStrict, applies_itself, is_allowed, strictly_as};
ghost use Rattle.names_uses.specs.UsedNames.{number_in};
ghost use Rattle.base_use_order.specs.Uses.{IsWithin, Leads, Uses, table_of};

use crate::used::definition_of;
use base_core::{NoMemory, Text};
use names_free::free_names;
use names_program::definitions;
use names_scopes::{ProgramNames, applies, is_one_of};
use reading_trees::{Config, DeclaredOperators, Definition, DefinitionForm, Program, Unit};
use std::alloc::Global;

/// Whether the name is one of those of the operators.
fn is_among(operators: &DeclaredOperators, name: &Text) -> bool
    ensures { result ≡ is_one_of name.now (operators_declared operators.now) }
{
    for operator in operators.items() {
        if operator.name == *name {
            return true;
        }
    }
    false
}

/// Whether a unit declares the name by RECURSIVE.
fn declares(unit: &Unit, name: &Text) -> bool
    ensures { result ≡ is_one_of name.now (operators_declared (recursive_in (unit.now ∷ []))) }
{
    match unit {
        Unit::Recursive(operators) => is_among(operators, name),
        Unit::Variables(_) => false,
        Unit::Constants(_) => false,
        Unit::Define(_) => false,
        Unit::Assume(_) => false,
        Unit::Instance(_) => false,
        Unit::Passed => false,
    }
}

/// Whether the program declares the name by RECURSIVE.
fn is_declared(program: &Program, name: &Text) -> bool
    ensures { result ≡ is_one_of name.now (operators_declared (recursive_in program.now.units)) }
{
    for unit in program.units.items() {
        if declares(unit, name) {
            return true;
        }
    }
    false
}

/// Of each definition whether RECURSIVE declares it.
fn declared(
    alloc: Global,
    program: &Program,
    definitions: &[&Definition],
) -> Result<Vec<bool>, NoMemory>
    ensures { IfOk result (λ bs. bs.items ≡ map (λ d. is_one_of d.now.name (operators_declared (recursive_in program.now.units))) definitions.now) }
{
    let mut marks = Vec::new(alloc);
    for definition in definitions {
        marks.push(is_declared(program, &definition.name))?;
    }
    Ok(marks)
}

/// The mark at an index, if there is one.
fn is_marked(marks: &[bool], index: usize) -> bool
    ensures { result ≡ slice_index_or marks.now index false }
{
    match marks.get(index) {
        Some(mark) => *mark,
        None => false,
    }
}

/// Whether the name is that of a function that only applies it in its own body.
fn applies_itself(definition: &Definition, name: &Text) -> bool
    ensures { result ≡ applies_itself definition.now name.now }
{
    match definition.form {
        DefinitionForm::Operator | DefinitionForm::Constant => false,
        DefinitionForm::Function => {
            if *name == definition.name {
                return applies(name, &definition.body);
            }
            false
        }
    }
}

/// Whether the definition of that index may use another by this name.
fn is_allowed(
    marks: &[bool],
    index: usize,
    definition: &Definition,
    name: &Text,
    number: usize,
) -> bool
    ensures { result ≡ is_allowed marks.now index definition.now name.now number }
{
    if is_marked(marks, number) {
        return true;
    }
    if index == number {
        return applies_itself(definition, name);
    }
    false
}

/// Adds what the definition of that index uses by the name and may not.
fn add(
    found: &mut Vec<usize>,
    marks: &[bool],
    names: &ProgramNames,
    index: usize,
    definition: &Definition,
    name: &Text,
) -> Result<(), NoMemory>
    ensures { OnOk result (found.new.items ≡ found.old.items ++ strictly_as marks.now index definition.now name.now (number_in (among names.now name.now))) }
{
    match definition_of(names, name) {
        Some(number) => {
            if is_one_of(name, definition.params.items()) {
                return Ok(());
            }
            if is_allowed(marks, index, definition, name, number) {
                return Ok(());
            }
            found.push(number)?;
            Ok(())
        }
        None => Ok(()),
    }
}

/// What the definition of that index uses and may not.
fn strict_in(
    alloc: Global,
    marks: &[bool],
    names: &ProgramNames,
    index: usize,
    definition: &Definition,
) -> Result<Vec<usize>, NoMemory>
    ensures { IfOk result (λ js. IsStrict marks.now names.now index definition.now js.items) }
{
    let free = free_names(alloc, &definition.body)?;
    let mut found = Vec::new(alloc);
    for name in free.items() {
        add(&mut found, marks, names, index, definition, name)?;
    }
    Ok(found)
}

/// What each of the definitions uses and may not.
fn strict_in_each(
    alloc: Global,
    marks: &[bool],
    names: &ProgramNames,
    definitions: &[&Definition],
) -> Result<Vec<Vec<usize>>, NoMemory>
    ensures { IfOk result (λ us. AreStrict marks.now names.now 0 (map (λ d. d.now) definitions.now) (table_of us.items)) }
{
    let mut uses = Vec::new(alloc);
    for index in 0..definitions.len() {
        let definition = definitions[index];
        let used = strict_in(alloc, marks, names, index, definition)?;
        uses.push(used)?;
    }
    Ok(uses)
}

/// For each definition, by its index, the indices of the definitions that it uses and may not: neither does RECURSIVE declare them, nor is it a function
/// that only applies itself.
pub fn strict_uses(
    alloc: Global,
    program: &Program,
    config: &Config,
    names: &ProgramNames,
) -> Result<Vec<Vec<usize>>, NoMemory>
    requires are { (values : List Val) × AreNames program.now config.now values by_index names.now }
    ensures each { IfOk result (λ us. length us.items ≡ length (definitions_in program.now.units)) }
    ensures within { IfOk result (λ us. IsWithin (table_of us.items)) }
    ensures exact { IfOk result (λ us. (i j : ℕ) → Uses (table_of us.items) i j ↔ UsesStrictly program.now config.now i j) }
    ensures leads { IfOk result (λ us. (i j : ℕ) → Leads (table_of us.items) i j ↔ LeadsStrictly program.now config.now i j) }
{
    let definitions = definitions(alloc, &program.units)?;
    let marks = declared(alloc, program, &definitions)?;
    let uses = strict_in_each(alloc, &marks, names, &definitions)?;
    Ok(uses)
}
