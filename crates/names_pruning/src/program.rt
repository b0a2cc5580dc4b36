//! The program without what no step needs.

ghost use Rattle.std.specs.Prelude.{◌≡◌, ◌≤◌, ◌↔◌, ℕ, IfOk, IsTrue, List, length, map, not};
ghost use Rattle.std.specs.List.{list_any};
ghost use Rattle.values_core.specs.Data.{Val};
ghost use Rattle.names_program.specs.InUnits.{constants_in, variables_in};
ghost use Rattle.names_program.specs.Names.{AreNames, by_index};
ghost use Rattle.names_scopes.specs.Mentions.{is_one_of};
ghost use Rattle.base_use_order.specs.Reach.{IsReached};
ghost use Rattle.names_pruning.specs.Answers.{IsPruning};
ghost use Rattle.names_pruning.specs.Parts.{IsWithout};
ghost use Rattle.names_pruning.specs.Pruning.{Alone, IsBad, NeedsBad};

use crate::over::{are_over, is_set_at};
use crate::parting::parted;
use crate::reach::{bad_definitions, needed_definitions};
use base_core::{NoMemory, Text};
use names_program::{constants, program_names};
use names_scopes::{ProgramNames, is_one_of};
use reading_trees::{Config, Program, Units};
use std::alloc::Global;
use values_core::Value;

/// The program that is left, and the units that are passed over, in the order of the text: definitions and assumptions.
#[derive(Drop)]
pub struct PrunedProgram {
    pub program: Program,
    pub passed_over: Units,
}

/// What pruning answers.
#[derive(Drop)]
pub enum Pruning {
    /// Something that is needed is bad. The program is as it was.
    Refused(Program),
    /// The program without what is bad.
    Left(PrunedProgram),
}

/// So many values, of which nothing is asked.
fn some_values(alloc: Global, count: usize) -> Result<Vec<Value>, NoMemory>
    ensures { IfOk result (λ values. length values.items ≡ count) }
{
    let mut values = Vec::new(alloc);
    while values.len() < count {
        values.push(Value::boolean(false))?;
    }
    Ok(values)
}

/// The names of the program, with some values for its constants.
pub(crate) fn names_of(
    alloc: Global,
    program: &Program,
    config: &Config,
) -> Result<ProgramNames, NoMemory>
    requires few { length (variables_in program.now.units) ≤ 64 }
    ensures { IfOk result (λ names. (values : List Val) × AreNames program.now config.now values by_index names) }
{
    let constants = constants(alloc, &program.units)?;
    let values = some_values(alloc, constants.len())?;
    program_names(alloc, program, config, &values)
}

/// Whether one of the names was not read.
fn some_unread(unread: &[Text], roots: &[Text]) -> bool
    ensures { result ≡ list_any (λ n. is_one_of n unread.now) roots.now }
{
    for root in roots {
        if is_one_of(root, unread) {
            return true;
        }
    }
    false
}

/// Whether both are true at some index.
fn some_both(needed: &[bool], bad: &[bool]) -> bool
    ensures { IsTrue result ↔ ((i : ℕ) × IsReached needed.now i × IsReached bad.now i) }
{
    for (index, is_needed) in needed.iter().enumerate() {
        if *is_needed && is_set_at(bad, Some(index)) {
            return true;
        }
    }
    false
}

/// Whether a name that is asked for was not read, or something that is needed is bad.
fn needs_bad(
    alloc: Global,
    program: &Program,
    config: &Config,
    names: &ProgramNames,
    unread: &[Text],
    roots: &[Text],
    bad: &[bool],
) -> Result<bool, NoMemory>
    requires are { (values : List Val) × AreNames program.now config.now values by_index names.now }
    requires bad { (i : ℕ) → IsReached bad.now i ↔ IsBad program.now config.now unread.now i }
    ensures { IfOk result (λ b. IsTrue b ↔ NeedsBad program.now config.now unread.now roots.now) }
{
    if some_unread(unread, roots) {
        return Ok(true);
    }
    let needed = needed_definitions(alloc, program, config, names, roots)?;
    Ok(some_both(&needed, bad))
}

/// For each definition whether it is not needed.
fn others(alloc: Global, needed: &[bool]) -> Result<Vec<bool>, NoMemory>
    ensures { IfOk result (λ r. r.items ≡ map not needed.now) }
{
    let mut others = Vec::new(alloc);
    for is_needed in needed {
        others.push(!*is_needed)?;
    }
    Ok(others)
}

/// The program without the definitions for which true stands there, and without what is assumed by them.
fn without(
    alloc: Global,
    program: Program,
    names: &ProgramNames,
    unread: &[Text],
    flags: &[bool],
) -> Result<PrunedProgram, NoMemory>
    ensures { IfOk result (λ q. IsWithout names.now unread.now flags.now program q.program q.passed_over) }
{
    let over = are_over(alloc, names, unread, flags, &program.units)?;
    let Program {
        files,
        units,
        standard,
    } = program;
    let parts = parted(alloc, units, &over)?;
    Ok(PrunedProgram {
        program: Program {
            files,
            units: parts.left,
            standard,
        },
        passed_over: parts.gone,
    })
}

/// The program without the definitions that are bad and without what is assumed by them, or as it was where something that is needed is bad: what these
/// names define, or what that uses. The names of pieces that were not read stand for definitions that are not there.
pub fn pruned(
    alloc: Global,
    program: Program,
    config: &Config,
    unread: &[Text],
    roots: &[Text],
) -> Result<Pruning, NoMemory>
    requires few { length (variables_in program.units) ≤ 64 }
    ensures exact { IfOk result (IsPruning program config.now unread.now roots.now) }
{
    let names = names_of(alloc, &program, config)?;
    let bad = bad_definitions(alloc, &program, config, &names, unread)?;
    if needs_bad(alloc, &program, config, &names, unread, roots, &bad)? {
        return Ok(Pruning::Refused(program));
    }
    let left = without(alloc, program, &names, unread, &bad)?;
    Ok(Pruning::Left(left))
}

/// The program with what is needed alone: what these names define, what that uses, and what is assumed of nothing else.
pub fn needed_alone(
    alloc: Global,
    program: Program,
    config: &Config,
    unread: &[Text],
    roots: &[Text],
) -> Result<PrunedProgram, NoMemory>
    requires few { length (variables_in program.units) ≤ 64 }
    ensures exact { IfOk result (λ q. Alone program config.now unread.now roots.now q.program q.passed_over) }
{
    let names = names_of(alloc, &program, config)?;
    let needed = needed_definitions(alloc, &program, config, &names, roots)?;
    let others = others(alloc, &needed)?;
    without(alloc, program, &names, unread, &others)
}
