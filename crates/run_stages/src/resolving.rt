ghost use Rattle.std.specs.Prelude.{IfOk, IfErr};
ghost use Rattle.names_tables.specs.Values.{AreSpelled};
ghost use Rattle.names_resolving.specs.Resolved.{IsOneForm};
ghost use Rattle.run_wide.specs.Answers.{IsResolution};
ghost use Rattle.run_stages.specs.Stops.{RefusedWith};
ghost use Rattle.run_stages.specs.Resolving.{IsUnresolved};

use crate::files::{all_files, copy_names};
use crate::stop::Stop;
use reading_modules::Notes;
use reading_trees::{Config, Program};
use reading_wide_modules::Unread;
use run_texts::{names_refusal, piece_refusal};
use run_wide::{Resolution, ResolutionFault, resolve_read};
use run_words::Job;
use std::alloc::Global;

/// The specification of modules with their configuration, as the job asks for them to be read, and the program and the configuration that it is of:
/// what no step needs may be passed over.
pub(crate) fn resolve_spec(
    alloc: Global,
    job: &Job,
    program: Program,
    notes: Notes<Unread>,
    config: Config,
) -> Result<Resolution, Stop>
    requires spelled { AreSpelled config.givens }
    requires form { IsOneForm config }
    ensures accepted { IfOk result (IsResolution job.now.wide program config job.now.silent notes) }
    ensures refused { IfErr result (RefusedWith (IsUnresolved job.now.wide program config job.now.silent notes)) }
{
    let files = copy_names(alloc, &program.files)?;
    let silent = job.silent.as_ref();
    match resolve_read(alloc, job.wide, silent, program, config, &notes) {
        Ok(resolved) => Ok(resolved),
        Err(ResolutionFault::Names(program, config, fault)) => {
            let files = all_files(alloc, &program, &config)?;
            Err(Stop::Refused(names_refusal(alloc, &files, &fault)?))
        }
        Err(ResolutionFault::Piece(index, root)) => {
            let piece = &notes.items()[index].note;
            Err(Stop::Refused(piece_refusal(alloc, &files, &piece.why, &root)?))
        }
        Err(ResolutionFault::NoMemory) => Err(Stop::NoMemory),
    }
}
