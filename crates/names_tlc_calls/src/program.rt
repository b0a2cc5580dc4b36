//! A program in which calls of TLC's operators are spelled out.

ghost use Rattle.std.specs.Prelude.{◌≡◌, IfOk, OnOk, map, reverse};
ghost use Rattle.names_tlc_calls.specs.Programs.{extends_tlc, spelled_definition, spelled_out, spelled_unit};

use crate::bound_names::BoundNames;
use crate::own_names::own_names;
use crate::spelling::{spelled, spelled_body};
use base_core::{NoMemory, Text};
use reading_trees::{Config, Definition, Program, Unit, Units};
use std::alloc::Global;

/// Whether the program extends TLC.
fn extends_tlc(program: &Program) -> bool
    ensures { result ≡ extends_tlc program.now }
{
    program
        .standard
        .items()
        .iter()
        .any(|name| name.as_str() == "TLC")
}

/// The definition with such calls in its body spelled out.
fn spelled_definition(
    alloc: Global,
    own: &mut BoundNames,
    definition: Definition,
) -> Result<Definition, NoMemory>
    ensures spelled { IfOk result (λ d. d ≡ spelled_definition own.old definition) }
    ensures own { OnOk result (own.new ≡ own.old) }
{
    let body = spelled_body(alloc, own, &definition)?;
    let Definition {
        name,
        at,
        params,
        form,
        body: _,
    } = definition;
    Ok(Definition {
        name,
        at,
        params,
        form,
        body,
    })
}

/// The unit with such calls spelled out.
fn spelled_unit(alloc: Global, own: &mut BoundNames, unit: Unit) -> Result<Unit, NoMemory>
    ensures spelled { IfOk result (λ u. u ≡ spelled_unit own.old unit) }
    ensures own { OnOk result (own.new ≡ own.old) }
{
    match unit {
        Unit::Define(definition) => {
            let definition = spelled_definition(alloc, own, definition)?;
            Ok(Unit::Define(definition))
        }
        Unit::Assume(tree) => {
            let tree = spelled(alloc, own, &tree)?;
            Ok(Unit::Assume(tree))
        }
        Unit::Variables(declared) => Ok(Unit::Variables(declared)),
        Unit::Constants(declared) => Ok(Unit::Constants(declared)),
        Unit::Recursive(operators) => Ok(Unit::Recursive(operators)),
        Unit::Instance(made) => Ok(Unit::Instance(made)),
        Unit::Passed => Ok(Unit::Passed),
    }
}

/// The units with such calls spelled out, from the last to the first.
fn spelled_from_end(alloc: Global, own: &mut BoundNames, units: Units) -> Result<Units, NoMemory>
    ensures { IfOk result (λ us. reverse us ≡ map (spelled_unit own.old) units) }
{
    let mut units = units;
    let mut spelled = Units::new(alloc);
    while let Some(unit) = units.pop() {
        let unit = spelled_unit(alloc, own, unit)?;
        spelled.push(unit)?;
    }
    Ok(spelled)
}

/// The units from the last to the first.
fn reversed(alloc: Global, units: Units) -> Result<Units, NoMemory>
    ensures { IfOk result (λ r. r ≡ reverse units) }
{
    let mut units = units;
    let mut reversed = Units::new(alloc);
    while let Some(unit) = units.pop() {
        reversed.push(unit)?;
    }
    Ok(reversed)
}

/// The program in which calls of TLC's operators for assertions and for printing are spelled out, where it extends TLC. A name that the program has itself is
/// no operator of TLC: one that its units declare or define, that the configuration gives something for, or that is among those of pieces that were not read.
pub fn spelled_out(
    alloc: Global,
    program: Program,
    config: &Config,
    unread: &[Text],
) -> Result<Program, NoMemory>
    ensures exact { IfOk result (λ p. p ≡ spelled_out program config.now unread.now) }
{
    if !extends_tlc(&program) {
        return Ok(program);
    }
    let mut own = own_names(alloc, &program, config, unread)?;
    let Program {
        files,
        units,
        standard,
    } = program;
    let units = spelled_from_end(alloc, &mut own, units)?;
    let units = reversed(alloc, units)?;
    Ok(Program {
        files,
        units,
        standard,
    })
}
