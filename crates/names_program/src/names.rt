//! The names of a program with its configuration.

ghost use Rattle.std.specs.Prelude.{◌≡◌, ◌<◌, ◌≤◌, [], ◌++◌, IfOk, OnOk, length, map};
ghost use Rattle.reading_trees.specs.Grammar.{qualified};
ghost use Rattle.names_program.specs.InUnits.{constants_in, definitions_in, variables_in};
ghost use Rattle.names_scopes.specs.Standing.{AreIn};
ghost use Rattle.names_program.specs.Entries.{constant_entries, constant_entry, definition_entries, definition_entry, marked_entries, plain_entries, replaced_is, standard_entries, variable_entries};
ghost use Rattle.names_program.specs.Names.{AreNames, by_index, meant_or, value_at};
ghost use Rattle.names_program.specs.Standard.{entry};
ghost use Rattle.names_scopes.specs.declared.meant.Meant.TheVariants as meant;

use crate::declared::{constants, definitions, variables};
use crate::replacing::replacement;
use crate::standard::{brought, is_replaceable};
use base_core::{NoMemory, Text};
use names_scopes::{Entry, Meant, Named, ProgramNames};
use names_terms::DefId;
use reading_trees::{Config, Declared, Definition, GivenAt, Program, qualified};
use states_core::VarId;
use std::alloc::Global;
use values_core::Value;

/// The name `!y` of a variable y, which no text spells.
fn marked(alloc: Global, name: &Text) -> Result<Text, NoMemory>
    ensures { IfOk result (λ q. q ≡ qualified [] name.now) }
{
    let nothing = Text::from_text(alloc, "")?;
    qualified(alloc, &nothing, name)
}

/// A name of the variable of that index.
fn variable(name: Text, index: usize) -> Entry
    requires { index < 64 }
    ensures { result ≡ entry name 0 (meant.Variable (record { 0 = index })) }
{
    Entry {
        name,
        is: Named {
            needed: 0,
            meant: Meant::Variable(VarId(index as u16)),
        },
    }
}

/// Adds the variables by their own names, numbered in their order.
fn push_plain(names: &mut ProgramNames, variables: &[&Declared]) -> Result<(), NoMemory>
    requires { length variables.now ≤ 64 }
    ensures { OnOk result (names.new ≡ names.old ++ plain_entries 0 (map (λ d. d.now) variables.now)) }
{
    for (index, declared) in variables.iter().enumerate() {
        names.push(variable(declared.name.copy()?, index))?;
    }
    Ok(())
}

/// Adds the same variables by their names behind a mark.
fn push_marked(
    alloc: Global,
    names: &mut ProgramNames,
    variables: &[&Declared],
) -> Result<(), NoMemory>
    requires { length variables.now ≤ 64 }
    ensures { OnOk result (names.new ≡ names.old ++ marked_entries 0 (map (λ d. d.now) variables.now)) }
{
    for (index, declared) in variables.iter().enumerate() {
        names.push(variable(marked(alloc, &declared.name)?, index))?;
    }
    Ok(())
}

/// Adds the variables, numbered in their order: each by its own name, then each by its name behind a mark.
#[tactic(auto, using(crate::proofs::EntryLemmas::both_kinds))]
fn push_variables(
    alloc: Global,
    names: &mut ProgramNames,
    variables: &[&Declared],
) -> Result<(), NoMemory>
    requires { length variables.now ≤ 64 }
    ensures { OnOk result (names.new ≡ names.old ++ variable_entries 0 (map (λ d. d.now) variables.now)) }
{
    push_plain(names, variables)?;
    push_marked(alloc, names, variables)?;
    Ok(())
}

/// What is meant, or the definition that stands in its place.
fn meant_or(meant: Meant, replacement: Option<usize>) -> Meant
    ensures { result ≡ meant_or meant replacement }
{
    match replacement {
        Some(index) => Meant::Definition(DefId(index)),
        None => meant,
    }
}

/// The value of the constant of that index.
fn value_of(values: &[Value], index: usize) -> &Value
    requires { index < length values.now }
    ensures { result.now ≡ value_at values.now index }
{
    &values[index]
}

/// A constant with its value, or with the definition that stands in its place.
fn constant(
    givens: &[GivenAt],
    definitions: &[&Definition],
    value: &Value,
    declared: &Declared,
) -> Result<Entry, NoMemory>
    ensures { IfOk result (λ e. e ≡ constant_entry givens.now (map (λ d. d.now) definitions.now) value.now declared.now) }
{
    let name = declared.name.copy()?;
    let known = Meant::Known(value.copy()?);
    let put = replacement(givens, definitions, &declared.name, 0);
    Ok(Entry {
        name,
        is: Named {
            needed: 0,
            meant: meant_or(known, put),
        },
    })
}

/// Adds the constants, whose values these are.
fn push_constants(
    names: &mut ProgramNames,
    givens: &[GivenAt],
    definitions: &[&Definition],
    constants: &[&Declared],
    values: &[Value],
) -> Result<(), NoMemory>
    requires { length values.now ≡ length constants.now }
    ensures { OnOk result (names.new ≡ names.old ++ constant_entries givens.now (map (λ d. d.now) definitions.now) values.now 0 (map (λ d. d.now) constants.now)) }
{
    for (index, declared) in constants.iter().enumerate() {
        names.push(constant(givens, definitions, value_of(values, index), declared)?)?;
    }
    Ok(())
}

/// A definition of that index, or the one that stands in its place.
fn definition(
    givens: &[GivenAt],
    definitions: &[&Definition],
    index: usize,
    defined: &Definition,
) -> Result<Entry, NoMemory>
    ensures { IfOk result (λ e. e ≡ definition_entry givens.now (map (λ d. d.now) definitions.now) index defined.now) }
{
    let name = defined.name.copy()?;
    let needed = defined.params.len();
    let put = replacement(givens, definitions, &defined.name, needed);
    Ok(Entry {
        name,
        is: Named {
            needed,
            meant: meant_or(Meant::Definition(DefId(index)), put),
        },
    })
}

/// Adds the definitions, by their indices.
fn push_definitions(
    names: &mut ProgramNames,
    givens: &[GivenAt],
    definitions: &[&Definition],
) -> Result<(), NoMemory>
    ensures { let all = map (λ d. d.now) definitions.now in OnOk result (names.new ≡ names.old ++ definition_entries givens.now all 0 all) }
{
    for (index, defined) in definitions.iter().enumerate() {
        names.push(definition(givens, definitions, index, defined)?)?;
    }
    Ok(())
}

/// What a standard name means, or the definition that stands in its place.
fn replaced(givens: &[GivenAt], definitions: &[&Definition], name: &Text, is: Named) -> Named
    ensures { result ≡ replaced_is givens.now (map (λ d. d.now) definitions.now) name.now is }
{
    if !is_replaceable(name) {
        return is;
    }
    let put = replacement(givens, definitions, name, is.needed);
    Named {
        needed: is.needed,
        meant: meant_or(is.meant, put),
    }
}

/// Adds the names that the standard modules bring.
#[tactic(auto, using(crate::proofs::EntryLemmas::standard_behind))]
fn push_standard(
    names: &mut ProgramNames,
    givens: &[GivenAt],
    definitions: &[&Definition],
    brought: Vec<Entry>,
) -> Result<(), NoMemory>
    ensures { OnOk result (names.new ≡ names.old ++ standard_entries givens.now (map (λ d. d.now) definitions.now) brought.items) }
{
    for entry in brought {
        let Entry { name, is } = entry;
        let is = replaced(givens, definitions, &name, is);
        names.push(Entry { name, is })?;
    }
    Ok(())
}

/// The names of a program, with a value for each constant, in the order of their declaration. Each definition has its index, in the
/// order of the text, as its number.
pub fn program_names(
    alloc: Global,
    program: &Program,
    config: &Config,
    values: &[Value],
) -> Result<ProgramNames, NoMemory>
    requires few { length (variables_in program.now.units) ≤ 64 }
    requires valued { length values.now ≡ length (constants_in program.now.units) }
    ensures are { IfOk result (λ ns. AreNames program.now config.now values.now by_index ns) }
    ensures within { IfOk result (λ ns. AreIn (length (definitions_in program.now.units)) ns) }
{
    let givens = config.givens.items();
    let variables = variables(alloc, &program.units)?;
    let constants = constants(alloc, &program.units)?;
    let definitions = definitions(alloc, &program.units)?;
    let brought = brought(alloc, &program.standard)?;
    let mut names = ProgramNames::new(alloc);
    push_variables(alloc, &mut names, &variables)?;
    push_constants(&mut names, givens, &definitions, &constants, values)?;
    push_definitions(&mut names, givens, &definitions)?;
    push_standard(&mut names, givens, &definitions, brought)?;
    Ok(names)
}
