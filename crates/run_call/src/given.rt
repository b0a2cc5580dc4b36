ghost use Rattle.std.specs.Prelude.{◌≡◌, ◌≤◌, All, IfErr, IfOk, OnOk, length, string_bytes};
ghost use Rattle.steps_lines_defs.specs.Says.{IsState};
ghost use Rattle.steps_lined.specs.Beside.{IsReadyOver, lines_of};
ghost use Rattle.run_words.specs.Words.{JobMeets};
ghost use Rattle.run_stages.specs.GivenStops.{GivenStopsBy};
ghost use Rattle.run_stages.specs.Stops.{IsToldBy};
ghost use Rattle.run_stages.specs.declared.stop.Stop.TheVariants.{NoMemory};
ghost use Rattle.run_texts.specs.Verdicts.{verdict_text};
ghost use Rattle.run_reading_defs.specs.Refusals.{all_files};
ghost use Rattle.run_call.specs.Calls.{AnswersGiven, CallsGiven, asked_by, status_of_verdict};
ghost use Rattle.run_call.specs.Found.{AreAllAssumed};

use crate::call::Status;
use crate::judge::{Judged, told};
use crate::searching::unassumed;
use base_core::{Files, Text};
use judge_verdicts::{LinedPairs, verdict_over};
use run_stages::{Given, Stop, all_files, read_given};
use run_texts::verdict_text;
use run_words::Job;
use states_verdicts::Verdict;
use std::alloc::Global;

/// What a job of `check` calls for.
pub(crate) fn judge_given<F: Files>(
    alloc: Global,
    job: &Job,
    witness: &Text,
    files: &mut F,
) -> Result<Judged, Stop>
    requires { JobMeets job.now }
    ensures calls { IfOk result (λ j. CallsGiven (F.holds files.old) (F.faults files.old) (F.faults files.new) job.now witness.now j.status (string_bytes j.report)) }
    ensures stopped { IfErr result (GivenStopsBy (F.holds files.old) (F.faults files.old) (F.faults files.new) job.now witness.now) }
    ensures quiet { OnOk result (F.failures files.new ≡ F.failures files.old) }
    ensures told { IfErr result (IsToldBy (F.failures files.old) (F.failures files.new)) }
    ensures same { F.holds files.new ≡ F.holds files.old }
    ensures later { F.faults files.old ≤ F.faults files.new }
{
    let given = read_given(alloc, job, witness, files)?;
    answer_given(alloc, job, &given)
}

/// What is true of the given states: the first assumption that is not TRUE goes before the verdict on them.
fn answer_given(alloc: Global, job: &Job, given: &Given) -> Result<Judged, Stop>
    requires meets { JobMeets job.now }
    requires ready { IsReadyOver given.now.accepted.spec given.now.accepted.lined }
    requires few_lines { lines_of given.now.accepted.lined ≤ 200000 }
    requires states { All (λ x. IsState (length given.now.accepted.spec.variables) x.state) given.now.states }
    ensures answers { IfOk result (λ j. AnswersGiven job.now given.now.accepted.program given.now.accepted.config given.now.accepted.spec given.now.accepted.lined
        given.now.states j.status (string_bytes j.report)) }
    ensures stopped { IfErr result (λ stop. stop ≡ NoMemory) }
{
    let first = unassumed(alloc, job, &given.accepted)?;
    match first {
        Some(answer) => told(alloc, job, &given.accepted, &answer),
        None => judge_states(alloc, job, given),
    }
}

/// The verdict on the given states, all assumptions being TRUE.
fn judge_states(alloc: Global, job: &Job, given: &Given) -> Result<Judged, Stop>
    requires meets { JobMeets job.now }
    requires ready { IsReadyOver given.now.accepted.spec given.now.accepted.lined }
    requires few_lines { lines_of given.now.accepted.lined ≤ 200000 }
    requires states { All (λ x. IsState (length given.now.accepted.spec.variables) x.state) given.now.states }
    requires assumed { AreAllAssumed given.now.accepted.spec (asked_by job.now.options) given.now.accepted.lined }
    ensures answers { IfOk result (λ j. AnswersGiven job.now given.now.accepted.program given.now.accepted.config given.now.accepted.spec given.now.accepted.lined
        given.now.states j.status (string_bytes j.report)) }
    ensures stopped { IfErr result (λ stop. stop ≡ NoMemory) }
{
    let pairs = LinedPairs {
        spec: &given.accepted.spec,
        lined: &given.accepted.lined,
        stutter: job.options.stutter,
        within: job.options.within,
        limit: job.options.limit,
    };
    let verdict = verdict_over(alloc, &pairs, &given.states)?;
    told_verdict(alloc, given, verdict)
}

/// The status and the report of a verdict.
fn told_verdict(alloc: Global, given: &Given, verdict: Verdict) -> Result<Judged, Stop>
    ensures status { IfOk result (λ j. j.status ≡ status_of_verdict verdict) }
    ensures report { IfOk result (λ j. string_bytes j.report
        ≡ verdict_text (all_files given.now.accepted.program given.now.accepted.config) (length given.now.states) verdict) }
    ensures stopped { IfErr result (λ stop. stop ≡ NoMemory) }
{
    let files = all_files(alloc, &given.accepted.program, &given.accepted.config)?;
    let count = given.states.len();
    Ok(Judged {
        status: status_of_verdict(verdict),
        report: verdict_text(alloc, &files, count, verdict)?,
    })
}

fn status_of_verdict(verdict: Verdict) -> Status
    ensures { result ≡ status_of_verdict verdict }
{
    match verdict {
        Verdict::Valid => Status::Done,
        Verdict::Invalid { .. } => Status::Not,
        Verdict::Fault { .. } => Status::Evaluation,
    }
}
