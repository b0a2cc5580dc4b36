ghost use Rattle.std.specs.Prelude.{◌≡◌, ◌≤◌, IfOk, IfErr, OnOk};
ghost use Rattle.steps_lined.specs.Beside.{IsReadyOver, lines_of};
ghost use Rattle.run_words.specs.Words.{JobMeets};
ghost use Rattle.run_reading_defs.specs.Reaches.{AllRead};
ghost use Rattle.run_stages.specs.Stops.{IsToldBy, StopsBy};

use crate::configs::read_config;
use crate::expanding::expand_program;
use crate::forms::test_forms;
use crate::logs::{Course, read_logs};
use crate::modules::{LoadedModules, load_program};
use crate::resolving::resolve_spec;
use crate::stop::Stop;
use base_core::Files;
use logs_tied::Lined;
use names_expanded_laws::{expanded_laws, wide_load_laws};
use names_load_laws::configuration_laws;
use names_resolved_laws::resolved_laws;
use names_terms::Spec;
use reading_trees::{Config, Program};
use run_wide::{Resolution, passing_laws};
use run_words::Job;
use std::alloc::Global;
use steps_ready_lines::{known_values_over, logs_are_ready};

/// What was made of the texts of a job: the program and its configuration without what is passed over, the specification of both, and the lines of all
/// logs.
#[derive(Drop)]
pub struct Accepted {
    pub program: Program,
    pub config: Config,
    pub spec: Spec,
    pub lined: Lined,
}

/// Reads the texts of a job in their order: the module and those that it extends, the configuration, then the logs, after names, levels and forms are
/// tested and what instances make stands in the program. With the word `--wide` what no step needs is passed over behind the configuration. The first refusal ends the reading; nothing is read behind
/// it.
pub fn read_all<F: Files>(alloc: Global, job: &Job, files: &mut F) -> Result<Accepted, Stop>
    requires { JobMeets job.now }
    ensures accepted { IfOk result (λ a. AllRead (F.holds files.old) job.now a.program a.config a.spec a.lined) }
    ensures ready { IfOk result (λ a. IsReadyOver a.spec a.lined) }
    ensures few_lines { IfOk result (λ a. lines_of a.lined ≤ 200000) }
    ensures stopped { IfErr result (StopsBy (F.holds files.old) (F.faults files.old) (F.faults files.new) job.now) }
    ensures quiet { OnOk result (F.failures files.new ≡ F.failures files.old) }
    ensures told { IfErr result (IsToldBy (F.failures files.old) (F.failures files.new)) }
    ensures same { F.holds files.new ≡ F.holds files.old }
    ensures later { F.faults files.old ≤ F.faults files.new }
{
    wide_load_laws();
    configuration_laws();
    passing_laws();
    resolved_laws();
    expanded_laws();
    let modules = load_program(alloc, job, files)?;
    let config = read_config(alloc, job, &modules, files)?;
    let LoadedModules { program, notes } = modules;
    let expanded = expand_program(alloc, job, program, &config)?;
    let resolved = resolve_spec(alloc, job, expanded, notes, config)?;
    let Resolution {
        program,
        config,
        spec,
    } = resolved;
    test_forms(alloc, &program, &config, &spec)?;
    let course = Course {
        job,
        program: &program,
        config: &config,
        spec: &spec,
    };
    let lined = read_logs(alloc, course, files)?;
    logs_are_ready();
    known_values_over(&lined);
    Ok(Accepted {
        program,
        config,
        spec,
        lined,
    })
}
