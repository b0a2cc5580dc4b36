//! From a program and its configuration to a specification, where names behind SPECIFICATION may be looked through.

ghost use Rattle.std.specs.Prelude.{◌≡◌, IfErr, IfOk, Err, Ok, option_map, true};
ghost use Rattle.names_tables.specs.Values.{AreSpelled};
ghost use Rattle.names_resolving.specs.Resolved.{IsOneForm, Resolved};
ghost use Rattle.names_specification.specs.Behind.{looked_through, specification_of};
ghost use Rattle.names_specification.specs.Resolving.{AnswersBy, ResolvedBy};

use crate::behind::specification_of;
use crate::copies::{copy_givens, copy_name, copy_names};
use base_core::{NoMemory, Text};
use names_resolving::{ResolveFault, resolve};
use names_terms::Spec;
use reading_trees::{Config, Program};
use std::alloc::Global;

/// The name of the operator that gives Init and Next, where one stands behind SPECIFICATION.
fn name_behind(alloc: Global, program: &Program, config: &Config) -> Result<Option<Text>, NoMemory>
    ensures { IfOk result (λ n. n ≡ option_map (specification_of program.now config.now) config.now.specification) }
{
    match &config.specification {
        Some(name) => Ok(Some(specification_of(alloc, program, config, name)?)),
        None => Ok(None),
    }
}

/// The same configuration, with that name behind SPECIFICATION.
fn looked_through(alloc: Global, program: &Program, config: &Config) -> Result<Config, NoMemory>
    ensures { IfOk result (λ c. c ≡ looked_through program.now config.now) }
{
    Ok(Config {
        file: config.file.copy()?,
        init: copy_name(&config.init)?,
        next: copy_name(&config.next)?,
        specification: name_behind(alloc, program, config)?,
        givens: copy_givens(alloc, &config.givens)?,
        unchecked: copy_names(alloc, &config.unchecked)?,
    })
}

/// The specification of a configuration that is refused as it stands.
#[tactic(auto, using(crate::proofs::Answering::refused_behind))]
fn resolve_behind(
    alloc: Global,
    program: &Program,
    config: &Config,
    silent: Option<&Text>,
    refusal: ResolveFault,
) -> Result<Spec, ResolveFault>
    requires spelled { AreSpelled config.now.givens }
    requires form { IsOneForm config.now }
    requires refused { Resolved program.now config.now (option_map (λ n. n.now) silent) (Err refusal) }
    ensures accepted { IfOk result (λ s. ResolvedBy true program.now config.now (option_map (λ n. n.now) silent.entry) (Ok s)) }
    ensures refused { IfErr result (λ f. AnswersBy true program.now config.now (option_map (λ n. n.now) silent.entry) (Err f)) }
{
    let behind = looked_through(alloc, program, config)?;
    match resolve(alloc, program, &behind, silent) {
        Ok(spec) => {
            drop(refusal);
            Ok(spec)
        }
        Err(ResolveFault::NoMemory) => {
            drop(refusal);
            Err(ResolveFault::NoMemory)
        }
        Err(fault) => {
            drop(fault);
            Err(refusal)
        }
    }
}

/// The specification of a program with its configuration as it stands, or else with the operator that the one behind SPECIFICATION stands for.
fn resolve_wide(
    alloc: Global,
    program: &Program,
    config: &Config,
    silent: Option<&Text>,
) -> Result<Spec, ResolveFault>
    requires spelled { AreSpelled config.now.givens }
    requires form { IsOneForm config.now }
    ensures accepted { IfOk result (λ s. ResolvedBy true program.now config.now (option_map (λ n. n.now) silent.entry) (Ok s)) }
    ensures refused { IfErr result (λ f. AnswersBy true program.now config.now (option_map (λ n. n.now) silent.entry) (Err f)) }
{
    match resolve(alloc, program, config, silent) {
        Ok(spec) => Ok(spec),
        Err(ResolveFault::NoMemory) => Err(ResolveFault::NoMemory),
        Err(refusal) => resolve_behind(alloc, program, config, silent, refusal),
    }
}

/// The specification of a program with its configuration, with the word `--wide` or without it.
///
/// Each value that the configuration writes is within the limits of values, and it has SPECIFICATION alone, or INIT and NEXT without it.
pub fn resolve_by(
    alloc: Global,
    wide: bool,
    program: &Program,
    config: &Config,
    silent: Option<&Text>,
) -> Result<Spec, ResolveFault>
    requires spelled { AreSpelled config.now.givens }
    requires form { IsOneForm config.now }
    ensures accepted { IfOk result (λ s. ResolvedBy wide program.now config.now (option_map (λ n. n.now) silent.entry) (Ok s)) }
    ensures refused { IfErr result (λ f. AnswersBy wide program.now config.now (option_map (λ n. n.now) silent.entry) (Err f)) }
{
    if wide {
        resolve_wide(alloc, program, config, silent)
    } else {
        resolve(alloc, program, config, silent)
    }
}
