ghost use Rattle.std.specs.Prelude.{◌≡◌, ◌≤◌, IfOk, IfErr, OnOk};
ghost use Rattle.run_words.specs.Names.{IsModule};
ghost use Rattle.run_reading_defs.specs.Reaches.{Reaches, loaded};
ghost use Rattle.run_stages.specs.Stops.{IsModuleStop, IsToldBy, StopsBy};

use crate::stop::{Stop, unread};
use base_core::{Files, Names, NoMemory};
use reading_modules::{LoadFault, LoadWhy, Notes};
use reading_trees::WholeProgram;
use reading_wide_modules::{Unread, load_modules};
use run_texts::module_refusal;
use run_words::Job;
use std::alloc::Global;

/// A program of modules with its instances, and what was not read of them.
#[derive(Drop)]
pub struct LoadedModules {
    pub program: WholeProgram,
    pub notes: Notes<Unread>,
}

/// The program of the job's module and of those that it extends, and what was not read of them.
pub(crate) fn load_program<F: Files>(
    alloc: Global,
    job: &Job,
    files: &mut F,
) -> Result<LoadedModules, Stop>
    requires { IsModule job.now.module }
    ensures accepted { IfOk result (λ l. Reaches (F.holds files.old) job.now (loaded l.program l.notes)) }
    ensures stopped { IfErr result (StopsBy (F.holds files.old) (F.faults files.old) (F.faults files.new) job.now) }
    ensures quiet { OnOk result (F.failures files.new ≡ F.failures files.old) }
    ensures told { IfErr result (IsToldBy (F.failures files.old) (F.failures files.new)) }
    ensures same { F.holds files.new ≡ F.holds files.old }
    ensures later { F.faults files.old ≤ F.faults files.new }
{
    match load_modules(alloc, job.wide, files, job.module.as_str()) {
        Ok(modules) => Ok(LoadedModules {
            program: modules.program,
            notes: modules.notes,
        }),
        Err(LoadFault::Refused(sought, why)) => Err(refused(alloc, &sought, &why)?),
        Err(LoadFault::NoMemory) => Err(Stop::NoMemory),
    }
}

/// The stop at modules that are refused.
fn refused(alloc: Global, sought: &Names, why: &LoadWhy) -> Result<Stop, NoMemory>
    ensures { IfOk result (IsModuleStop sought.now why.now) }
{
    match why {
        LoadWhy::Read(name, fault) => unread(alloc, *fault, name),
        _ => Ok(Stop::Refused(module_refusal(alloc, sought, why)?)),
    }
}
