ghost use Rattle.std.specs.Prelude.{◌≡◌, IfOk, IfErr, Ok, Err};
ghost use Rattle.names_resolving.specs.declared.fault.ResolveFault.{ResolveFault};
ghost use Rattle.names_whole_programs.specs.Expansion.{ExpansionBy};
ghost use Rattle.run_texts.specs.Resolved.{names_refusal};
ghost use Rattle.run_reading_defs.specs.Refusals.{all_files};
ghost use Rattle.run_stages.specs.Stops.{RefusedWith};

use crate::files::all_files;
use crate::stop::Stop;
use names_resolving::ResolveFault;
use names_whole_programs::{check_instances, expand};
use reading_trees::{Config, Program, WholeProgram};
use run_texts::names_refusal;
use run_words::Job;
use std::alloc::Global;

/// The program of modules with what its instances make. Too many variables are refused, and without `--wide` what is wrong with an instance.
pub(crate) fn expand_program(
    alloc: Global,
    job: &Job,
    whole: WholeProgram,
    config: &Config,
) -> Result<Program, Stop>
    ensures accepted { IfOk result (λ p. ExpansionBy job.now.wide whole (Ok p)) }
    ensures refused { IfErr result (RefusedWith (λ report. (f : ResolveFault) × ExpansionBy job.now.wide whole (Err f) × (report ≡ names_refusal (all_files whole.program config.now) f))) }
{
    match check_instances(alloc, job.wide, &whole) {
        Ok(()) => Ok(expand(alloc, job.wide, whole)?),
        Err(ResolveFault::NoMemory) => Err(Stop::NoMemory),
        Err(fault) => {
            let files = all_files(alloc, &whole.program, config)?;
            Err(Stop::Refused(names_refusal(alloc, &files, &fault)?))
        }
    }
}
