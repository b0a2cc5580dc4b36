ghost use Rattle.std.specs.Prelude.{◌≡◌, ◌≤◌, ◌++◌, ◌∷◌, [], IfOk, IfErr, OnOk, Ok, Err, length};
ghost use Rattle.base_core.specs.declared.place.Place.{Place};
ghost use Rattle.reading_configuration.specs.declared.fault.ConfigKind.{ConfigKind};
ghost use Rattle.reading_wide_configuration.specs.Wide.{ReadsBy};
ghost use Rattle.run_texts.specs.Configs.{config_refusal};
ghost use Rattle.run_reading_defs.specs.Texts.{config_limit, without_file};
ghost use Rattle.run_reading_defs.specs.Reaches.{Reaches, given, loaded};
ghost use Rattle.run_stages.specs.Stops.{IsToldBy, RefusedWith, StopsBy};

use crate::files::with_file;
use crate::modules::LoadedModules;
use crate::stop::Stop;
use crate::wanted::read_wanted;
use base_core::limits::MAX_CONFIGURATION_BYTES;
use base_core::{Files, Names, NoMemory, Text};
use names_expanded_laws::wide_load_laws;
use reading_configuration::ConfigFault;
use reading_trees::{Config, Givens, Program};
use reading_wide_configuration::config_by;
use run_texts::config_refusal;
use run_words::Job;
use std::alloc::Global;

/// The configuration that the job names, or the one that holds where it names none.
pub(crate) fn read_config<F: Files>(
    alloc: Global,
    job: &Job,
    modules: &LoadedModules,
    files: &mut F,
) -> Result<Config, Stop>
    requires reaches { Reaches (F.holds files.now) job.now (loaded modules.now.program modules.now.notes) }
    ensures accepted { IfOk result (λ c. Reaches (F.holds files.old) job.now (given modules.now.program modules.now.notes c)) }
    ensures stopped { IfErr result (StopsBy (F.holds files.old) (F.faults files.old) (F.faults files.new) job.now) }
    ensures quiet { OnOk result (F.failures files.new ≡ F.failures files.old) }
    ensures told { IfErr result (IsToldBy (F.failures files.old) (F.failures files.new)) }
    ensures same { F.holds files.new ≡ F.holds files.old }
    ensures later { F.faults files.old ≤ F.faults files.new }
{
    wide_load_laws();
    match &job.config {
        None => Ok(without_file(alloc)?),
        Some(name) => {
            let text = read_wanted(alloc, job, files, name, MAX_CONFIGURATION_BYTES)?;
            config_of(alloc, job, &modules.program.program, name, text.as_slice())
        }
    }
}

/// The configuration of a text, whose file is counted behind those of the program, as the job asks for it to be read.
fn config_of(
    alloc: Global,
    job: &Job,
    program: &Program,
    name: &Text,
    text: &[u8],
) -> Result<Config, Stop>
    requires few { length program.now.files ≤ 32 }
    requires short { length text.now ≤ config_limit }
    ensures accepted { IfOk result (λ c. ReadsBy job.now.wide (length program.now.files) name.now text.now (Ok c)) }
    ensures refused { IfErr result (RefusedWith (λ report. (kind : ConfigKind) × (at : Place)
        × ReadsBy job.now.wide (length program.now.files) name.now text.now (Err (kind, at)) × (report ≡ config_refusal (program.now.files ++ name.now ∷ []) kind at))) }
{
    let number = program.files.len() as u32;
    match config_by(alloc, job.wide, number, name.as_str(), text) {
        Ok(config) => Ok(config),
        Err(ConfigFault::Refused(kind, at)) => {
            let files = with_file(alloc, &program.files, name)?;
            Err(Stop::Refused(config_refusal(alloc, &files, &kind, at)?))
        }
        Err(ConfigFault::NoMemory) => Err(Stop::NoMemory),
    }
}

/// The configuration that holds where none is read: `INIT Init NEXT Next`.
fn without_file(alloc: Global) -> Result<Config, NoMemory>
    ensures { IfOk result (λ c. c ≡ without_file) }
{
    Ok(Config {
        file: Text::from_text(alloc, "")?,
        init: Some(Text::from_text(alloc, "Init")?),
        next: Some(Text::from_text(alloc, "Next")?),
        specification: None,
        givens: Givens::new(alloc),
        unchecked: Names::new(alloc),
    })
}
