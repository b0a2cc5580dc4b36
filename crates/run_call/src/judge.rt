ghost use Rattle.std.specs.Prelude.{◌≡◌, ◌≤◌, ℕ, List, IfOk, IfErr, OnOk, None, string_bytes};
ghost use Rattle.run_words.specs.Line.{words_of};
ghost use Rattle.run_words.specs.Words.{AreWords, JobMeets, MeetsRules};
ghost use Rattle.run_stages.specs.Stops.{IsToldBy, StopsBy};
ghost use Rattle.run_stages.specs.declared.stop.Stop.TheVariants.{NoMemory};
ghost use Rattle.run_texts.specs.Files.{words_text};
ghost use Rattle.run_texts.specs.Answers.{answer_text};
ghost use Rattle.logs_tied.specs.declared.logs.Lined.TheVariants.{Tied};
ghost use Rattle.logs_tied.specs.declared.logs.Logs.{Logs};
ghost use Rattle.steps_lined.specs.Beside.{IsReadyOver, lines_of};
ghost use Rattle.run_call.specs.Calls.{Answers, Calls, named_beside, named_in, status_of};
ghost use Rattle.run_call.specs.Run.{IsStop, Runs};

use crate::call::Status;
use crate::given::judge_given;
use crate::searching::true_answer;
use crate::smoke::judge_smoke;
use crate::whole::told_whole;
use base_core::Files;
use logs_tied::Lined;
use names_terms::Spec;
use reading_trees::{Config, Program};
use run_stages::{Accepted, Stop, all_files, read_all};
use run_texts::{Labels, answer_text, words_text};
use run_words::{Job, Words, read_words};
use states_layers::Answer;
use std::alloc::Global;
use steps_lined::held_so;

/// A report, and the status that goes with it.
#[derive(Drop)]
pub struct Judged {
    pub status: Status,
    pub report: String,
}

/// What the words and the files call for.
pub fn judge<F: Files>(alloc: Global, words: &[String], files: &mut F) -> Result<Judged, Stop>
    ensures runs { IfOk result (λ j. Runs (words_of words.now) (F.holds files.old) (F.faults files.old) (F.faults files.new) j.status (string_bytes j.report)) }
    ensures stopped { IfErr result (IsStop (words_of words.now) (F.holds files.old) (F.faults files.old) (F.faults files.new)) }
    ensures quiet { OnOk result (F.failures files.new ≡ F.failures files.old) }
    ensures told { IfErr result (IsToldBy (F.failures files.old) (F.failures files.new)) }
    ensures same { F.holds files.new ≡ F.holds files.old }
    ensures later { F.faults files.old ≤ F.faults files.new }
{
    let read = read_words(alloc, words)?;
    match read {
        Some(command) => judge_command(alloc, &command, files),
        None => refuse_words(alloc),
    }
}

/// What a command calls for, of whichever words it is the command.
fn judge_command<F: Files>(alloc: Global, command: &Words, files: &mut F) -> Result<Judged, Stop>
    requires { MeetsRules command.now }
    ensures runs { (words : List (List ℕ)) → AreWords words command.now
        → IfOk result (λ j. Runs words (F.holds files.old) (F.faults files.old) (F.faults files.new) j.status (string_bytes j.report)) }
    ensures stopped { (words : List (List ℕ)) → AreWords words command.now
        → IfErr result (IsStop words (F.holds files.old) (F.faults files.old) (F.faults files.new)) }
    ensures quiet { OnOk result (F.failures files.new ≡ F.failures files.old) }
    ensures told { IfErr result (IsToldBy (F.failures files.old) (F.failures files.new)) }
    ensures same { F.holds files.new ≡ F.holds files.old }
    ensures later { F.faults files.old ≤ F.faults files.new }
{
    match command {
        Words::Validate(job) => judge_job(alloc, job, files),
        Words::Check(job, witness) => judge_given(alloc, job, witness, files),
        Words::SelfRun(lines) => judge_smoke(alloc, *lines),
    }
}

fn refuse_words(alloc: Global) -> Result<Judged, Stop>
    ensures status { IfOk result (λ j. j.status ≡ Status.Words) }
    ensures report { IfOk result (λ j. string_bytes j.report ≡ words_text) }
    ensures stopped { IfErr result (λ stop. stop ≡ NoMemory) }
{
    Ok(Judged {
        status: Status::Words,
        report: words_text(alloc)?,
    })
}

/// What a job of `validate` calls for.
fn judge_job<F: Files>(alloc: Global, job: &Job, files: &mut F) -> Result<Judged, Stop>
    requires { JobMeets job.now }
    ensures calls { IfOk result (λ j. Calls (F.holds files.old) (F.faults files.old) (F.faults files.new) job.now j.status (string_bytes j.report)) }
    ensures stopped { IfErr result (StopsBy (F.holds files.old) (F.faults files.old) (F.faults files.new) job.now) }
    ensures quiet { OnOk result (F.failures files.new ≡ F.failures files.old) }
    ensures told { IfErr result (IsToldBy (F.failures files.old) (F.failures files.new)) }
    ensures same { F.holds files.new ≡ F.holds files.old }
    ensures later { F.faults files.old ≤ F.faults files.new }
{
    let accepted = read_all(alloc, job, files)?;
    held_so(&accepted.spec, &accepted.lined);
    answer(alloc, job, accepted)
}

/// What is true of the specification beside the lines of its logs.
fn answer(alloc: Global, job: &Job, accepted: Accepted) -> Result<Judged, Stop>
    requires meets { JobMeets job.now }
    requires ready { IsReadyOver accepted.spec accepted.lined }
    requires few_lines { lines_of accepted.lined ≤ 200000 }
    ensures answers { IfOk result (λ j. Answers job.now accepted.program accepted.config accepted.spec accepted.lined j.status (string_bytes j.report)) }
    ensures stopped { IfErr result (λ stop. stop ≡ NoMemory) }
{
    match (job.why, job.near) {
        (None, None) => told_alone(alloc, job, accepted),
        _ => told_with_more(alloc, job, &accepted),
    }
}

/// The status and the report of an answer alone, where nothing is asked for behind it. The lines are let go before the report is made, which may be as large.
fn told_alone(alloc: Global, job: &Job, accepted: Accepted) -> Result<Judged, Stop>
    requires meets { JobMeets job.now }
    requires ready { IsReadyOver accepted.spec accepted.lined }
    requires few_lines { lines_of accepted.lined ≤ 200000 }
    requires unasked { job.now.why ≡ None }
    requires no_near { job.now.near ≡ None }
    ensures answers { IfOk result (λ j. Answers job.now accepted.program accepted.config accepted.spec accepted.lined j.status (string_bytes j.report)) }
    ensures stopped { IfErr result (λ stop. stop ≡ NoMemory) }
{
    let answer = true_answer(alloc, job, &accepted)?;
    let lines = line_count(&accepted);
    let Accepted {
        program,
        config,
        spec,
        lined,
    } = accepted;
    drop(lined);
    let heading = Heading {
        program: &program,
        config: &config,
        spec: &spec,
        lines,
    };
    told_beside(alloc, job, heading, &answer)
}

/// The status and the report of an answer with what is asked for behind it, which is told beside lines in one order alone.
fn told_with_more(alloc: Global, job: &Job, accepted: &Accepted) -> Result<Judged, Stop>
    requires meets { JobMeets job.now }
    requires ready { IsReadyOver accepted.now.spec accepted.now.lined }
    requires few_lines { lines_of accepted.now.lined ≤ 200000 }
    ensures answers { IfOk result (λ j. Answers job.now accepted.now.program accepted.now.config accepted.now.spec accepted.now.lined j.status (string_bytes j.report)) }
    ensures stopped { IfErr result (λ stop. stop ≡ NoMemory) }
{
    match &accepted.lined {
        Lined::Sequence(log) => told_whole(alloc, job, accepted, log),
        Lined::Tied(_) => told_of_ties(alloc, job, accepted),
    }
}

/// The status and the report of an answer of logs whose lines may stand in several orders.
fn told_of_ties(alloc: Global, job: &Job, accepted: &Accepted) -> Result<Judged, Stop>
    requires meets { JobMeets job.now }
    requires ready { IsReadyOver accepted.now.spec accepted.now.lined }
    requires few_lines { lines_of accepted.now.lined ≤ 200000 }
    requires ties { (logs : Logs) × (accepted.now.lined ≡ Tied logs) }
    ensures answers { IfOk result (λ j. Answers job.now accepted.now.program accepted.now.config accepted.now.spec accepted.now.lined j.status (string_bytes j.report)) }
    ensures stopped { IfErr result (λ stop. stop ≡ NoMemory) }
{
    let answer = true_answer(alloc, job, accepted)?;
    told(alloc, job, accepted, &answer)
}

/// How many lines all logs have.
fn line_count(accepted: &Accepted) -> usize
    requires ready { IsReadyOver accepted.now.spec accepted.now.lined }
    requires few_lines { lines_of accepted.now.lined ≤ 200000 }
    ensures { result ≡ lines_of accepted.now.lined }
{
    match &accepted.lined {
        Lined::Sequence(log) => log.lines.len(),
        Lined::Tied(logs) => logs.count() as usize,
    }
}

/// What a report tells of what was accepted, beside the answer: the lines of the log are only counted.
#[derive(Clone, Copy, Drop)]
struct Heading<'a> {
    program: &'a Program,
    config: &'a Config,
    spec: &'a Spec,
    lines: usize,
}

/// The status and the report of an answer.
pub(crate) fn told(
    alloc: Global,
    job: &Job,
    accepted: &Accepted,
    answer: &Answer,
) -> Result<Judged, Stop>
    requires ready { IsReadyOver accepted.now.spec accepted.now.lined }
    requires few_lines { lines_of accepted.now.lined ≤ 200000 }
    ensures status { IfOk result (λ j. j.status ≡ status_of answer.now) }
    ensures report { IfOk result (λ j. string_bytes j.report
        ≡ answer_text (named_in job.now accepted.now.program accepted.now.config accepted.now.spec accepted.now.lined) answer.now) }
    ensures stopped { IfErr result (λ stop. stop ≡ NoMemory) }
{
    let heading = Heading {
        program: &accepted.program,
        config: &accepted.config,
        spec: &accepted.spec,
        lines: line_count(accepted),
    };
    told_beside(alloc, job, heading, answer)
}

/// The status and the report of an answer, under this heading.
fn told_beside(
    alloc: Global,
    job: &Job,
    heading: Heading<'_>,
    answer: &Answer,
) -> Result<Judged, Stop>
    ensures status { IfOk result (λ j. j.status ≡ status_of answer.now) }
    ensures report { IfOk result (λ j. string_bytes j.report
        ≡ answer_text (named_beside job.now heading.entry.program.now heading.entry.config.now heading.entry.spec.now heading.entry.lines) answer.now) }
    ensures stopped { IfErr result (λ stop. stop ≡ NoMemory) }
{
    let files = all_files(alloc, heading.program, heading.config)?;
    let labels = Labels {
        files: &files,
        logs: &job.logs,
        variables: &heading.spec.variables,
        unchecked: &heading.spec.unchecked,
        lines: heading.lines,
        limit: job.options.limit,
    };
    Ok(Judged {
        status: status_of(answer),
        report: answer_text(alloc, &labels, answer)?,
    })
}

pub(crate) fn status_of(answer: &Answer) -> Status
    ensures { result ≡ status_of answer.now }
{
    match answer {
        Answer::Explained { .. } => Status::Done,
        Answer::NotExplained { .. } => Status::Not,
        Answer::NoInitial => Status::Not,
        Answer::InitFault { .. } => Status::Evaluation,
        Answer::Fault { .. } => Status::Evaluation,
        Answer::AssumeFault { .. } => Status::Evaluation,
        Answer::AssumeFalse { .. } => Status::Evaluation,
        Answer::LayerLimit { .. } => Status::Limit,
        Answer::TotalLimit { .. } => Status::Limit,
    }
}
