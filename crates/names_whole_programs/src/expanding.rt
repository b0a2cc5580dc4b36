//! A program with what its instances make.

ghost use Rattle.std.specs.Prelude.{◌≡◌, ◌∷◌, [], ◌++◌, IfOk, Ok, OnOk, Some, option_map};
ghost use Rattle.names_program.specs.Standard.{brought};
ghost use Rattle.names_whole_programs.specs.Expanded.{has_instances, is_instance, made_by};
ghost use Rattle.reading_trees.specs.declared.module.Unit.TheVariants as kinds;
ghost use Rattle.names_whole_programs.specs.Expansion.{ExpansionBy, IsExpandableBy};
ghost use Rattle.names_whole_programs.specs.Wide.{blank, blank_definition, expanded_wide, fault_name, fault_place, left_of, wide_units};
ghost use Rattle.names_instances.specs.Instances.{unknown};
ghost use Rattle.names_whole_programs.specs.Steps.{steps_of};

use crate::copying::{copy_names, copy_unit};
use crate::faults::unit_fault;
use crate::given::{declared_in, substitutes_for};
use base_core::{Names, NoMemory, Place, Text};
use names_instances::instantiate;
use names_program::brought;
use names_resolving::ResolveFault;
use names_scopes::Entry;
use reading_trees::{
    Definition, DefinitionForm, Expr, Exprs, Instance, Instances, Made, Node, Program, Unit, Units,
    WholeProgram, qualified,
};
use std::alloc::Global;

/// How many of the instances of a program a unit is.
pub(crate) fn steps_of(unit: &Unit) -> usize
    ensures { result ≡ steps_of unit.now }
{
    match unit {
        Unit::Instance(_) => 1,
        Unit::Variables(_) => 0,
        Unit::Constants(_) => 0,
        Unit::Define(_) => 0,
        Unit::Recursive(_) => 0,
        Unit::Assume(_) => 0,
        Unit::Passed => 0,
    }
}

/// Whether a unit is an instance.
fn is_instance(unit: &Unit) -> bool
    ensures { result ≡ is_instance unit.now }
{
    match unit {
        Unit::Instance(_) => true,
        Unit::Variables(_) => false,
        Unit::Constants(_) => false,
        Unit::Define(_) => false,
        Unit::Recursive(_) => false,
        Unit::Assume(_) => false,
        Unit::Passed => false,
    }
}

/// Whether some unit is an instance.
fn has_instances(units: &Units) -> bool
    ensures { result ≡ has_instances units.now }
{
    for unit in units.items() {
        if is_instance(unit) {
            return true;
        }
    }
    false
}

/// Adds what an instance makes.
fn add_instance(
    alloc: Global,
    units: &mut Units,
    program: &Program,
    standard: &[Entry],
    made: &Made,
    instance: &Instance,
) -> Result<(), NoMemory>
    requires { standard.now ≡ brought program.now.standard }
    ensures { OnOk result (units.new ≡ units.old ++ made_by program.now (kinds.Instance made.now) (Some instance.now)) }
{
    let declared = declared_in(alloc, &instance.program.units)?;
    let with = substitutes_for(alloc, &program.units, standard, made, &declared)?;
    let more = instantiate(alloc, &made.name, &instance.program, &with)?;
    units.append(more)
}

/// Adds what a unit makes, where this is the next of the instances.
fn add_made(
    alloc: Global,
    units: &mut Units,
    program: &Program,
    standard: &[Entry],
    unit: &Unit,
    instance: Option<&Instance>,
) -> Result<(), NoMemory>
    requires { standard.now ≡ brought program.now.standard }
    ensures { OnOk result (units.new ≡ units.old ++ made_by program.now unit.now (option_map (λ i. i.now) instance.entry)) }
{
    match unit {
        Unit::Instance(made) => match instance {
            Some(instance) => add_instance(alloc, units, program, standard, made, instance),
            None => Ok(()),
        },
        Unit::Variables(_) => Ok(()),
        Unit::Constants(_) => Ok(()),
        Unit::Define(_) => Ok(()),
        Unit::Recursive(_) => Ok(()),
        Unit::Assume(_) => Ok(()),
        Unit::Passed => Ok(()),
    }
}

/// Adds a unit, and what it makes.
#[tactic(auto, using(crate::proofs::Together::one_and_more))]
fn add_fine(
    alloc: Global,
    units: &mut Units,
    program: &Program,
    standard: &[Entry],
    unit: &Unit,
    instance: Option<&Instance>,
) -> Result<(), NoMemory>
    requires { standard.now ≡ brought program.now.standard }
    ensures { OnOk result (units.new ≡ units.old ++ unit.now ∷ made_by program.now unit.now (option_map (λ i. i.now) instance.entry)) }
{
    let copy = copy_unit(alloc, unit)?;
    units.push(copy)?;
    add_made(alloc, units, program, standard, unit, instance)?;
    Ok(())
}

/// The name that a fault of an instance tells.
fn fault_name(alloc: Global, fault: &ResolveFault) -> Result<Text, NoMemory>
    ensures { IfOk result (λ n. n ≡ fault_name fault.now) }
{
    match fault {
        ResolveFault::UnknownName(name, _) => name.copy(),
        ResolveFault::NoSubstitute(name, _) => name.copy(),
        ResolveFault::NotAVariable(name, _) => name.copy(),
        ResolveFault::WrongArity(_, _, _, _)
        | ResolveFault::LevelTooHigh(_, _, _)
        | ResolveFault::PrimedArgument(_)
        | ResolveFault::NoValue(_, _)
        | ResolveFault::NotTheShape(_)
        | ResolveFault::Recursion(_, _)
        | ResolveFault::TooManyVariables(_)
        | ResolveFault::NoOperator(_)
        | ResolveFault::NoMemory => Text::from_text(alloc, ""),
    }
}

/// The place that a fault of an instance tells, which stands here.
fn fault_place(here: Place, fault: &ResolveFault) -> Place
    ensures { result ≡ fault_place here fault.now }
{
    match fault {
        ResolveFault::UnknownName(_, at) => *at,
        ResolveFault::NoSubstitute(_, at) => *at,
        ResolveFault::NotAVariable(_, at) => *at,
        ResolveFault::WrongArity(_, _, _, _)
        | ResolveFault::LevelTooHigh(_, _, _)
        | ResolveFault::PrimedArgument(_)
        | ResolveFault::NoValue(_, _)
        | ResolveFault::NotTheShape(_)
        | ResolveFault::Recursion(_, _)
        | ResolveFault::TooManyVariables(_)
        | ResolveFault::NoOperator(_)
        | ResolveFault::NoMemory => here,
    }
}

/// The name `!!n`, which nothing defines.
fn unknown(alloc: Global, name: &Text) -> Result<Text, NoMemory>
    ensures { IfOk result (λ q. q ≡ unknown name.now) }
{
    let nothing = Text::from_text(alloc, "")?;
    let marked = qualified(alloc, &nothing, name)?;
    qualified(alloc, &nothing, &marked)
}

/// A definition of the name of an instance that means nothing.
fn blank_definition(alloc: Global, made: &Made, fault: &ResolveFault) -> Result<Unit, NoMemory>
    ensures { IfOk result (λ u. u ≡ blank_definition made.now fault.now) }
{
    let told = fault_name(alloc, fault)?;
    let unknown = unknown(alloc, &told)?;
    let at = fault_place(made.at, fault);
    let body = Expr::new(alloc, at, Node::Qualified(unknown, Exprs::new(alloc)))?;
    let name = made.name.copy()?;
    Ok(Unit::Define(Definition {
        name,
        at: made.at,
        params: Names::new(alloc),
        form: DefinitionForm::Operator,
        body,
    }))
}

/// Adds what is left of an instance with which something is wrong.
fn add_blank(
    alloc: Global,
    units: &mut Units,
    unit: &Unit,
    fault: &ResolveFault,
) -> Result<(), NoMemory>
    ensures { OnOk result (units.new ≡ units.old ++ blank unit.now fault.now) }
{
    match unit {
        Unit::Instance(made) => {
            let definition = blank_definition(alloc, made, fault)?;
            units.push(definition)
        }
        Unit::Variables(_) => Ok(()),
        Unit::Constants(_) => Ok(()),
        Unit::Define(_) => Ok(()),
        Unit::Recursive(_) => Ok(()),
        Unit::Assume(_) => Ok(()),
        Unit::Passed => Ok(()),
    }
}

/// Adds a unit, and what it makes; or what is left of an instance with which something is wrong.
fn add_unit(
    alloc: Global,
    units: &mut Units,
    program: &Program,
    standard: &[Entry],
    unit: &Unit,
    instance: Option<&Instance>,
) -> Result<(), NoMemory>
    requires { standard.now ≡ brought program.now.standard }
    ensures { OnOk result (units.new ≡ units.old ++ left_of program.now unit.now (option_map (λ i. i.now) instance.entry)) }
{
    let fault = unit_fault(alloc, program, standard, unit, instance)?;
    match fault {
        Some(first) => add_blank(alloc, units, unit, &first),
        None => add_fine(alloc, units, program, standard, unit, instance),
    }
}

/// The units of a program, each instance with what it makes behind it. In place of an instance with which something is wrong stands a definition that means
/// nothing.
fn expanded_units(
    alloc: Global,
    program: &Program,
    instances: &[Instance],
) -> Result<Units, NoMemory>
    ensures { IfOk result (λ us. us ≡ wide_units program.now program.now.units instances.now) }
{
    let standard = brought(alloc, &program.standard)?;
    let mut units = Units::new(alloc);
    let mut next = 0;
    for unit in program.units.items() {
        add_unit(
            alloc,
            &mut units,
            program,
            &standard,
            unit,
            instances.get(next),
        )?;
        next += steps_of(unit);
    }
    Ok(units)
}

/// The program with what its instances make, in a program of its own.
fn expanded(alloc: Global, program: &Program, instances: &Instances) -> Result<Program, NoMemory>
    ensures { IfOk result (λ p. p ≡ expanded_wide (record { program = program.now; instances = instances.now })) }
{
    let files = copy_names(alloc, &program.files)?;
    let units = expanded_units(alloc, program, instances.items())?;
    let standard = copy_names(alloc, &program.standard)?;
    Ok(Program {
        files,
        units,
        standard,
    })
}

/// The program with what its instances make, with `--wide` or without it. Without an instance it is the program itself. With the word a definition that
/// means nothing stands in place of an instance with which something is wrong; without it there is none.
pub fn expand(alloc: Global, wide: bool, whole: WholeProgram) -> Result<Program, NoMemory>
    requires { IsExpandableBy wide whole }
    ensures { IfOk result (λ p. ExpansionBy wide whole (Ok p)) }
{
    let WholeProgram { program, instances } = whole;
    if has_instances(&program.units) {
        return expanded(alloc, &program, &instances);
    }
    Ok(program)
}
