//! The specification of a program, where what no step needs may be passed over.

ghost use Rattle.std.specs.Prelude.{◌≡◌, ◌≢◌, ◌≤◌, ◌⊎◌, ◌↔◌, [], Err, IfErr, IfOk, IsTrue, length, option_map, true};
ghost use Rattle.names_program.specs.InUnits.{variables_in};
ghost use Rattle.names_tables.specs.Values.{AreSpelled};
ghost use Rattle.names_resolving.specs.Resolved.{IsOneForm};
ghost use Rattle.names_resolving.specs.declared.fault.ResolveFault.{ResolveFault};
ghost use Rattle.names_specification.specs.Resolving.{ResolvedWide};
ghost use Rattle.names_tlc_calls.specs.Programs.{spelled_out};
ghost use Rattle.run_wide.specs.Answers.{IsResolution, IsResolutionFault};

use crate::leaving::left_part;
use crate::needing::{Asked, first_needed, names_asked, needed_by};
use crate::resolution::{Resolution, ResolutionFault, as_it_stands};
use base_core::{NoMemory, Text};
use names_program::variables;
use names_tlc_calls::{spelled_out, spelling_laws};
use reading_modules::{Noted, Notes};
use reading_trees::{Config, Program};
use reading_wide_modules::Unread;
use std::alloc::Global;

/// Whether the program has no more than 64 variables.
fn has_few(alloc: Global, program: &Program) -> Result<bool, NoMemory>
    ensures { IfOk result (λ b. IsTrue b ↔ (length (variables_in program.now.units) ≤ 64)) }
{
    let variables = variables(alloc, &program.units)?;
    Ok(variables.len() <= 64)
}

/// The program with calls of TLC's operators spelled out.
fn spelled_by(
    alloc: Global,
    program: Program,
    config: &Config,
    asked: &Asked,
) -> Result<Program, NoMemory>
    ensures spelled { IfOk result (λ p. p ≡ spelled_out program config.now asked.now.unread) }
    ensures variables { IfOk result (λ p. variables_in p.units ≡ variables_in program.units) }
{
    spelling_laws();
    spelled_out(alloc, program, config, asked.unread.items())
}

/// The specification of a program of which a piece was not read or which is refused as it stands.
fn with_less(
    alloc: Global,
    silent: Option<&Text>,
    program: Program,
    config: Config,
    unread: &[Noted<Unread>],
) -> Result<Resolution, ResolutionFault>
    requires spelled { AreSpelled config.givens }
    requires form { IsOneForm config }
    requires lacks { (unread.now ≢ []) ⊎ ((fault : ResolveFault) × ResolvedWide program config (option_map (λ n. n.now) silent) (Err fault)) }
    ensures accepted { IfOk result (IsResolution true program config (option_map (λ n. n.now) silent.entry) unread.now) }
    ensures refused { IfErr result (IsResolutionFault true program config (option_map (λ n. n.now) silent.entry) unread.now) }
{
    let few = has_few(alloc, &program)?;
    if !few {
        return as_it_stands(alloc, true, silent, program, config);
    }
    let asked = names_asked(alloc, &config, silent, unread)?;
    let spelled = spelled_by(alloc, program, &config, &asked)?;
    let needed = first_needed(alloc, &spelled, &config, unread, &asked)?;
    match needed {
        Some((index, name)) => {
            let root = needed_by(alloc, &spelled, &config, asked.roots.items(), name)?;
            Err(ResolutionFault::Piece(index, root))
        }
        None => left_part(alloc, silent, spelled, config, unread, &asked),
    }
}

/// The specification of a program as it stands where all of it was read, and else with calls spelled out and what no step needs passed over.
fn resolve_wide(
    alloc: Global,
    silent: Option<&Text>,
    program: Program,
    config: Config,
    unread: &[Noted<Unread>],
) -> Result<Resolution, ResolutionFault>
    requires spelled { AreSpelled config.givens }
    requires form { IsOneForm config }
    ensures accepted { IfOk result (IsResolution true program config (option_map (λ n. n.now) silent.entry) unread.now) }
    ensures refused { IfErr result (IsResolutionFault true program config (option_map (λ n. n.now) silent.entry) unread.now) }
{
    if !unread.is_empty() {
        return with_less(alloc, silent, program, config, unread);
    }
    match as_it_stands(alloc, true, silent, program, config) {
        Ok(resolution) => Ok(resolution),
        Err(fault) => match fault {
            ResolutionFault::Names(program, config, refusal) => {
                drop(refusal);
                with_less(alloc, silent, program, config, unread)
            }
            ResolutionFault::Piece(_, _) => unreachable!(),
            ResolutionFault::NoMemory => Err(ResolutionFault::NoMemory),
        },
    }
}

/// The specification of a program with its configuration, and what was resolved. Without the word `--wide` they are resolved as they stand. With it,
/// where a piece of a module was not read or they are refused as they stand, calls of TLC's operators for assertions and for printing are spelled out. What
/// no step needs then is passed over, and told behind all else that the configuration leaves unchecked. `unread` are the pieces that were not read, of which none may be needed.
///
/// Each value that the configuration writes is within the limits of values, and it has SPECIFICATION alone, or INIT and NEXT without it.
pub fn resolve_read(
    alloc: Global,
    wide: bool,
    silent: Option<&Text>,
    program: Program,
    config: Config,
    unread: &Notes<Unread>,
) -> Result<Resolution, ResolutionFault>
    requires spelled { AreSpelled config.givens }
    requires form { IsOneForm config }
    ensures accepted { IfOk result (IsResolution wide program config (option_map (λ n. n.now) silent.entry) unread.now) }
    ensures refused { IfErr result (IsResolutionFault wide program config (option_map (λ n. n.now) silent.entry) unread.now) }
{
    if wide {
        return resolve_wide(alloc, silent, program, config, unread.items());
    }
    as_it_stands(alloc, false, silent, program, config)
}
