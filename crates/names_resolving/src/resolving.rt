//! From a program and its configuration to a specification.

ghost use Rattle.std.specs.Prelude.{◌≡◌, ◌++◌, ℕ, List, IfOk, IfErr, OnOk, Option, None, Ok, Err, length, map, option_map};
ghost use Rattle.values_core.specs.Data.{Val};
ghost use Rattle.reading_trees.specs.declared.module.Program.{Program as Modules};
ghost use Rattle.names_terms.specs.Lists.{terms_list};
ghost use Rattle.names_term_parts.specs.Slots.{UsesSmaller};
ghost use Rattle.names_term_levels.specs.Notes.{AreNotes};
ghost use Rattle.base_core.specs.declared.place.Place.{Place as At};
ghost use Rattle.names_program.specs.Names.{names_declared, numbers_of};
ghost use Rattle.names_tables.specs.Values.{AreSpelled};
ghost use Rattle.names_resolving.specs.Configured.{AreSteps, HasNoShape, IsSilentOf, first_too_high, first_without_operator, missing};
ghost use Rattle.names_resolving.specs.Givens.{first_given_fault};
ghost use Rattle.names_resolving.specs.Resolved.{Answers, IsConfigured, IsLevelled, IsNamed, IsOneForm, IsSpecOf, Resolved};
ghost use Rattle.names_resolving.specs.Standing.{AreBelow, AreDeclarations, IsComplete, RefusesName};
ghost use Rattle.names_resolving.specs.UnitLevels.{HasFineLevels};

use crate::configured::{first_too_high, first_without_operator};
use crate::fault::{ResolveFault, of_level};
use crate::finding::{Declarations, declared_in};
use crate::givens::first_given_fault;
use crate::named::{Named, name_program};
use crate::steps::{Steps, steps_of};
use crate::unit_levels::{first_level_fault, number_at};
use base_core::{Names, NoMemory, Text};
use names_program::definition_index;
use names_tables::Table;
use names_term_levels::{Note, notes};
use names_terms::{DefId, Spec, Terms};
use reading_trees::{Config, Declared, Program};
use std::alloc::Global;

/// Refuses what is wrong with what the configuration gives, and with the levels of the program.
fn check_levels(
    alloc: Global,
    program: &Program,
    config: &Config,
    declarations: &Declarations<'_>,
    named: &Named,
    notes: &[Note],
) -> Result<(), ResolveFault>
    requires declared { AreDeclarations program.now declarations.now }
    requires noted { AreNotes named.now.table.operators notes.now }
    requires all { length notes.now ≡ length named.now.table.operators }
    requires below { AreBelow (length named.now.table.operators) named.now.assumes }
    requires ordered { UsesSmaller named.now.table.operators }
    ensures givens { OnOk result (first_given_fault program.now (numbers_of named.now.table.numbers.items) named.now.table.operators config.now.givens ≡ None) }
    ensures levels { OnOk result (HasFineLevels program.now (numbers_of named.now.table.numbers.items) named.now.table.operators (terms_list named.now.assumes)) }
    ensures refused { IfErr result (λ f. (values : List Val) (silent : Option (List ℕ)) → IsNamed program.now config.now values (numbers_of named.now.table.numbers.items) named.now.table.operators (terms_list named.now.assumes) → Answers program.now config.now silent (Err f)) }
{
    let given = first_given_fault(program, declarations, &named.table, config.givens.items())?;
    match given {
        Some(fault) => Err(fault),
        None => {
            let level = first_level_fault(alloc, program, &named.table, notes, &named.assumes)?;
            match level {
                Some(fault) => Err(of_level(fault)),
                None => Ok(()),
            }
        }
    }
}

/// Refuses a name that no definition without parameters has.
fn check_operators(
    program: &Program,
    declarations: &Declarations<'_>,
    config: &Config,
    silent: Option<&Text>,
) -> Result<(), ResolveFault>
    requires declared { AreDeclarations program.now declarations.now }
    ensures there { OnOk result (first_without_operator program.now config.now (option_map (λ n. n.now) silent.entry) ≡ None) }
    ensures refused { IfErr result (RefusesName (first_without_operator program.now config.now (option_map (λ n. n.now) silent.entry))) }
{
    match first_without_operator(program, declarations, config, silent)? {
        Some(name) => Err(ResolveFault::NoOperator(name)),
        None => Ok(()),
    }
}

/// The names of what is declared.
fn names_of(alloc: Global, declared: &[&Declared]) -> Result<Names, NoMemory>
    ensures { IfOk result (λ ns. ns ≡ names_declared (map (λ d. d.now) declared.now)) }
{
    let mut names = Names::new(alloc);
    for one in declared {
        names.push(one.name.copy()?)?;
    }
    Ok(names)
}

/// The same names.
fn copy_names(alloc: Global, names: &Names) -> Result<Names, NoMemory>
    ensures { IfOk result (λ ns. ns ≡ names.now) }
{
    let mut copies = Names::new(alloc);
    for name in names.items() {
        copies.push(name.copy()?)?;
    }
    Ok(copies)
}

/// The number of the operator of the steps without a line, if one is named.
fn silent_number(
    program: &Program,
    declarations: &Declarations<'_>,
    table: &Table,
    silent: Option<&Text>,
) -> Option<DefId>
    requires declared { AreDeclarations program.now declarations.now }
    requires complete { IsComplete program.now table.now }
    requires there { missing program.now (option_map (λ n. n.now) silent) ≡ None }
    ensures { IsSilentOf program.now (numbers_of table.now.numbers.items) (option_map (λ n. n.now) silent.entry) result }
{
    match silent {
        Some(name) => match definition_index(&declarations.definitions, name) {
            Some(index) => match number_at(table, index) {
                Some(number) => Some(DefId(number)),
                None => unreachable!(),
            },
            None => unreachable!(),
        },
        None => None,
    }
}

/// The specification that these parts make.
fn spec_of(
    alloc: Global,
    program: &Program,
    config: &Config,
    declarations: &Declarations<'_>,
    named: Named,
    steps: Steps,
    silent: Option<&Text>,
) -> Result<Spec, NoMemory>
    requires declared { AreDeclarations program.now declarations.now }
    requires complete { IsComplete program.now named.table }
    requires there { missing program.now (option_map (λ n. n.now) silent) ≡ None }
    requires steps { AreSteps program.now config.now (numbers_of named.table.numbers.items) named.table.operators steps.init steps.next }
    ensures { IfOk result (IsSpecOf program.now config.now (option_map (λ n. n.now) silent.entry) (numbers_of named.table.numbers.items) named.table.operators (terms_list named.assumes)) }
{
    let silent = silent_number(program, declarations, &named.table, silent);
    let files = copy_names(alloc, &program.files)?;
    let variables = names_of(alloc, &declarations.variables)?;
    let unchecked = copy_names(alloc, &config.unchecked)?;
    let Named { table, assumes } = named;
    let Steps { init, next } = steps;
    Ok(Spec {
        files,
        variables,
        operators: table.operators,
        init,
        next,
        silent,
        assumes,
        unchecked,
    })
}

/// Refuses an operator of INIT, NEXT or the steps without a line whose level is too high.
fn check_limits(
    program: &Program,
    declarations: &Declarations<'_>,
    config: &Config,
    silent: Option<&Text>,
    table: &Table,
) -> Result<(), ResolveFault>
    requires declared { AreDeclarations program.now declarations.now }
    ensures fine { OnOk result (first_too_high program.now config.now (option_map (λ n. n.now) silent.entry) (numbers_of table.now.numbers.items) table.now.operators ≡ None) }
    ensures refused { IfErr result (λ f. first_too_high program.now config.now (option_map (λ n. n.now) silent.entry) (numbers_of table.now.numbers.items) table.now.operators ≡ Some f) }
{
    match first_too_high(program, declarations, config, silent, table) {
        Some(fault) => Err(fault),
        None => Ok(()),
    }
}

/// Refuses what is wrong with levels, with what the configuration gives, and with the names of operators.
fn check_named(
    alloc: Global,
    program: &Program,
    config: &Config,
    silent: Option<&Text>,
    declarations: &Declarations<'_>,
    named: &Named,
    notes: &[Note],
) -> Result<(), ResolveFault>
    requires declared { AreDeclarations program.now declarations.now }
    requires noted { AreNotes named.now.table.operators notes.now }
    requires all { length notes.now ≡ length named.now.table.operators }
    requires below { AreBelow (length named.now.table.operators) named.now.assumes }
    requires named { (values : List Val) × IsNamed program.now config.now values (numbers_of named.now.table.numbers.items) named.now.table.operators (terms_list named.now.assumes) }
    ensures configured { OnOk result ((values : List Val) × IsConfigured program.now config.now (option_map (λ n. n.now) silent.entry) values (numbers_of named.now.table.numbers.items) named.now.table.operators (terms_list named.now.assumes)) }
    ensures refused { IfErr result (λ f. Answers program.now config.now (option_map (λ n. n.now) silent.entry) (Err f)) }
{
    check_levels(alloc, program, config, declarations, named, notes)?;
    check_operators(program, declarations, config, silent)
}

/// The specification of a program that is configured.
fn configured(
    alloc: Global,
    program: &Program,
    config: &Config,
    silent: Option<&Text>,
    declarations: &Declarations<'_>,
    named: Named,
    notes: &[Note],
) -> Result<Spec, ResolveFault>
    requires declared { AreDeclarations program.now declarations.now }
    requires noted { AreNotes named.table.operators notes.now }
    requires all { length notes.now ≡ length named.table.operators }
    requires form { IsOneForm config.now }
    requires configured { (values : List Val) × IsConfigured program.now config.now (option_map (λ n. n.now) silent) values (numbers_of named.table.numbers.items) named.table.operators (terms_list named.assumes) }
    ensures accepted { IfOk result (λ s. Resolved program.now config.now (option_map (λ n. n.now) silent.entry) (Ok s)) }
    ensures refused { IfErr result (λ f. Answers program.now config.now (option_map (λ n. n.now) silent.entry) (Err f)) }
{
    let steps = steps_of(alloc, program, declarations, config, &named.table, notes)?;
    check_limits(program, declarations, config, silent, &named.table)?;
    let spec = spec_of(alloc, program, config, declarations, named, steps, silent)?;
    Ok(spec)
}

/// The specification of a program with its configuration, and with the operator of the steps without a line if one is named; or the first thing that is
/// wrong. Too many variables come first, then names in the order of the text, constants without a value, what the configuration gives, levels in the order of
/// the text, names without an operator, the shape behind SPECIFICATION, and the levels of what the configuration names (this project's profile).
///
/// Each value that the configuration writes is within the limits of values, and it has SPECIFICATION alone, or INIT and NEXT without it.
pub fn resolve(
    alloc: Global,
    program: &Program,
    config: &Config,
    silent: Option<&Text>,
) -> Result<Spec, ResolveFault>
    requires spelled { AreSpelled config.now.givens }
    requires form { IsOneForm config.now }
    ensures accepted { IfOk result (λ s. Resolved program.now config.now (option_map (λ n. n.now) silent.entry) (Ok s)) }
    ensures refused { IfErr result (λ f. Answers program.now config.now (option_map (λ n. n.now) silent.entry) (Err f)) }
{
    let named = name_program(alloc, program, config)?;
    let notes = notes(alloc, named.table.operators.items())?;
    let declarations = declared_in(alloc, program)?;
    check_named(
        alloc,
        program,
        config,
        silent,
        &declarations,
        &named,
        &notes,
    )?;
    configured(alloc, program, config, silent, &declarations, named, &notes)
}
