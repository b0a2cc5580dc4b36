ghost use Rattle.std.specs.Prelude.{◌≡◌, ◌≤◌, ◌∷◌, ℕ, List, IfOk, IfErr, OnOk, length};
ghost use Rattle.logs_files.specs.Lined.{AreMadeSo};
ghost use Rattle.steps_lined.specs.Beside.{lines_of};
ghost use Rattle.names_specification_laws.specs.IsSpec.{IsSpec};
ghost use Rattle.steps_names.specs.Names.{names_of};
ghost use Rattle.run_reading_defs.specs.Texts.{LogsRead, no_logs};
ghost use Rattle.run_reading_defs.specs.Reaches.{AllRead, Reaches, logged};
ghost use Rattle.run_stages.specs.Stops.{IsToldBy, StopsBy};
ghost use Rattle.run_stages.specs.Logs.{AreKept, IsOnTheWay};

use crate::stop::Stop;
use crate::wanted::read_wanted;
use base_core::limits::{MAX_LOG_BYTES, MAX_STEPS};
use base_core::{Files, Text};
use logs_files::lined_of;
use logs_lines::{ClockForm, FileLines, line_laws, read_log};
use logs_tied::Lined;
use names_terms::Spec;
use reading_trees::{Config, Program};
use run_texts::log_refusal;
use run_words::Job;
use std::alloc::Global;
use steps_names::LogNames;

/// What was accepted before the logs are read.
#[derive(Clone, Copy, Drop)]
pub(crate) struct Course<'a> {
    pub(crate) job: &'a Job,
    pub(crate) program: &'a Program,
    pub(crate) config: &'a Config,
    pub(crate) spec: &'a Spec,
}

/// What was read of the logs: the number of the next, from 1, the bytes and the steps of those before together, the form of their clocks, and what each says.
#[derive(Drop)]
pub(crate) struct LogsSoFar {
    pub(crate) number: u32,
    pub(crate) bytes: usize,
    pub(crate) steps: u32,
    pub(crate) form: ClockForm,
    pub(crate) found: Vec<FileLines>,
}

/// The lines of all files, each read and tested whole before the next: in one order, or in each that the job leaves open.
pub(crate) fn read_logs<F: Files>(
    alloc: Global,
    course: Course<'_>,
    files: &mut F,
) -> Result<Lined, Stop>
    requires ordered { IsSpec course.spec.now }
    requires few { length course.job.now.logs ≤ 64 }
    requires reaches { Reaches (F.holds files.now) course.job.now (logged course.program.now course.config.now course.spec.now no_logs course.job.now.logs) }
    ensures accepted { IfOk result (AllRead (F.holds files.old) course.entry.job.now course.entry.program.now course.entry.config.now course.entry.spec.now) }
    ensures made { IfOk result AreMadeSo }
    ensures few { IfOk result (λ lined. lines_of lined ≤ 200000) }
    ensures stopped { IfErr result (StopsBy (F.holds files.old) (F.faults files.old) (F.faults files.new) course.entry.job.now) }
    ensures quiet { OnOk result (F.failures files.new ≡ F.failures files.old) }
    ensures told { IfErr result (IsToldBy (F.failures files.old) (F.failures files.new)) }
    ensures same { F.holds files.new ≡ F.holds files.old }
    ensures later { F.faults files.old ≤ F.faults files.new }
{
    let names = LogNames::new(alloc, course.spec)?;
    let mut so = LogsSoFar {
        number: 1,
        bytes: 0,
        steps: 0,
        form: ClockForm::Free,
        found: Vec::new(alloc),
    };
    for name in course.job.logs.items() {
        so = read_next(alloc, course, &names, name, so, files)?;
    }
    let lined = lined_of(alloc, course.job.ties, so.found)?;
    Ok(lined)
}

/// Reads the next log.
fn read_next<F: Files>(
    alloc: Global,
    course: Course<'_>,
    names: &LogNames<'_>,
    name: &Text,
    so: LogsSoFar,
    files: &mut F,
) -> Result<LogsSoFar, Stop>
    requires names { names.now.spec.now ≡ course.spec.now }
    requires way { (rest : List (List ℕ)) × IsOnTheWay (F.holds files.now) course so (name.now ∷ rest) }
    ensures read { IfOk result (λ next. (rest : List (List ℕ)) → IsOnTheWay (F.holds files.old) course.entry so (name.now ∷ rest) → IsOnTheWay (F.holds files.old) course.entry next rest) }
    ensures stopped { IfErr result (StopsBy (F.holds files.old) (F.faults files.old) (F.faults files.new) course.entry.job.now) }
    ensures quiet { OnOk result (F.failures files.new ≡ F.failures files.old) }
    ensures told { IfErr result (IsToldBy (F.failures files.old) (F.failures files.new)) }
    ensures same { F.holds files.new ≡ F.holds files.old }
    ensures later { F.faults files.old ≤ F.faults files.new }
{
    let LogsSoFar {
        number,
        bytes,
        steps,
        form,
        found,
    } = so;
    let text = read_wanted(alloc, course.job, files, name, MAX_LOG_BYTES - bytes)?;
    let piece = text.as_slice();
    let many = course.job.logs.len() > 1;
    line_laws(names);
    match read_log(alloc, names, number, many, MAX_STEPS - steps, form, piece)? {
        Ok(file) => {
            let count = file.steps.len() as u32;
            let form = file.form;
            let mut found = found;
            found.push(file)?;
            Ok(LogsSoFar {
                number: number + 1,
                bytes: bytes + piece.len(),
                steps: steps + count,
                form,
                found,
            })
        }
        Err(refusal) => Err(Stop::Refused(log_refusal(alloc, name.as_str(), refusal)?)),
    }
}
