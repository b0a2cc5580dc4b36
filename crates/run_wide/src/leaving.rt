//! What is left of a program where something goes, and its specification.

ghost use Rattle.std.specs.Prelude.{◌≡◌, ◌≤◌, IfErr, IfOk, length, option_map, true};
ghost use Rattle.names_program.specs.InUnits.{variables_in};
ghost use Rattle.names_tables.specs.Values.{AreSpelled};
ghost use Rattle.names_resolving.specs.Resolved.{IsOneForm};
ghost use Rattle.reading_wide_configuration.specs.Wide.{also_told};
ghost use Rattle.run_wide.specs.Lines.{passed_lines};
ghost use Rattle.run_wide.specs.Parts.{IsAloneOf, IsAsItStands, IsGoodPart, IsRefusedSo, LeavesBy, RefusesLeft, ResolvesLeft};

use crate::needing::Asked;
use crate::resolution::{Resolution, ResolutionFault, as_it_stands};
use crate::unchecked::{telling, with_unchecked};
use base_core::Text;
use names_pruning::{PrunedProgram, Pruning, needed_alone, needed_laws, pruned};
use reading_modules::Noted;
use reading_trees::{Config, Program, Units};
use reading_wide_modules::Unread;
use std::alloc::Global;

/// A program that is left, resolved with what is told of what goes.
fn resolve_left(
    alloc: Global,
    silent: Option<&Text>,
    program: Program,
    config: Config,
    unread: &[Noted<Unread>],
    over: &Units,
) -> Result<Resolution, ResolutionFault>
    requires spelled { AreSpelled config.givens }
    requires form { IsOneForm config }
    ensures accepted { IfOk result (IsAsItStands true program (also_told (passed_lines program.files unread.now over.now) config) (option_map (λ n. n.now) silent.entry)) }
    ensures refused { IfErr result (IsRefusedSo true program (also_told (passed_lines program.files unread.now over.now) config) (option_map (λ n. n.now) silent.entry)) }
{
    let told = telling(alloc, config, &program.files, unread, over)?;
    let (config, _) = told;
    as_it_stands(alloc, true, silent, program, config)
}

/// What is needed, left alone and resolved. `gone` is what went before.
fn needed_part(
    alloc: Global,
    silent: Option<&Text>,
    program: Program,
    config: Config,
    unread: &[Noted<Unread>],
    asked: &Asked,
    gone: Units,
) -> Result<Resolution, ResolutionFault>
    requires few { length (variables_in program.units) ≤ 64 }
    requires spelled { AreSpelled config.givens }
    requires form { IsOneForm config }
    ensures accepted { IfOk result (ResolvesLeft (IsAloneOf program gone config asked.now) program.files config (option_map (λ n. n.now) silent.entry) unread.now) }
    ensures refused { IfErr result (RefusesLeft (IsAloneOf program gone config asked.now) program.files config (option_map (λ n. n.now) silent.entry) unread.now) }
{
    let left = needed_alone(
        alloc,
        program,
        &config,
        asked.unread.items(),
        asked.roots.items(),
    )?;
    let PrunedProgram {
        program,
        passed_over,
    } = left;
    let mut over = gone;
    over.append(passed_over)?;
    resolve_left(alloc, silent, program, config, unread, &over)
}

/// What is left without what is bad, resolved; or what of it is needed alone, where it is refused.
fn good_part(
    alloc: Global,
    silent: Option<&Text>,
    left: PrunedProgram,
    config: Config,
    unread: &[Noted<Unread>],
    asked: &Asked,
) -> Result<Resolution, ResolutionFault>
    requires few { length (variables_in left.program.units) ≤ 64 }
    requires spelled { AreSpelled config.givens }
    requires form { IsOneForm config }
    ensures accepted { IfOk result (ResolvesLeft (IsGoodPart left config asked.now (option_map (λ n. n.now) silent.entry) unread.now) left.program.files config (option_map (λ n. n.now) silent.entry) unread.now) }
    ensures refused { IfErr result (RefusesLeft (IsGoodPart left config asked.now (option_map (λ n. n.now) silent.entry) unread.now) left.program.files config (option_map (λ n. n.now) silent.entry) unread.now) }
{
    let PrunedProgram {
        program,
        passed_over,
    } = left;
    let told = telling(alloc, config, &program.files, unread, &passed_over)?;
    let (config, unchecked) = told;
    match as_it_stands(alloc, true, silent, program, config) {
        Ok(resolution) => Ok(resolution),
        Err(fault) => match fault {
            ResolutionFault::Names(program, config, refusal) => {
                drop(refusal);
                let (config, _) = with_unchecked(config, unchecked);
                needed_part(alloc, silent, program, config, unread, asked, passed_over)
            }
            ResolutionFault::Piece(_, _) => unreachable!(),
            ResolutionFault::NoMemory => Err(ResolutionFault::NoMemory),
        },
    }
}

/// What is left where nothing is needed that was not read, resolved.
pub(crate) fn left_part(
    alloc: Global,
    silent: Option<&Text>,
    program: Program,
    config: Config,
    unread: &[Noted<Unread>],
    asked: &Asked,
) -> Result<Resolution, ResolutionFault>
    requires few { length (variables_in program.units) ≤ 64 }
    requires spelled { AreSpelled config.givens }
    requires form { IsOneForm config }
    ensures accepted { IfOk result (ResolvesLeft (LeavesBy program config asked.now (option_map (λ n. n.now) silent.entry) unread.now) program.files config (option_map (λ n. n.now) silent.entry) unread.now) }
    ensures refused { IfErr result (RefusesLeft (LeavesBy program config asked.now (option_map (λ n. n.now) silent.entry) unread.now) program.files config (option_map (λ n. n.now) silent.entry) unread.now) }
{
    needed_laws();
    let pruning = pruned(
        alloc,
        program,
        &config,
        asked.unread.items(),
        asked.roots.items(),
    )?;
    match pruning {
        Pruning::Refused(program) => {
            needed_part(
                alloc,
                silent,
                program,
                config,
                unread,
                asked,
                Units::new(alloc),
            )
        }
        Pruning::Left(left) => good_part(alloc, silent, left, config, unread, asked),
    }
}
