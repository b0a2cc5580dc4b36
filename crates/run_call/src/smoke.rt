ghost use Rattle.std.specs.Prelude.{◌≡◌, ◌≢◌, ◌≤◌, IfErr, IfOk, MatchOption, None, string_bytes};
ghost use Rattle.states_layers.specs.declared.answer.Answer.TheVariants.{Explained};
ghost use Rattle.steps_lined.specs.Beside.{AreTellable, IsReadyOver, lines_of};
ghost use Rattle.run_words.specs.Words.{JobMeets};
ghost use Rattle.run_stages.specs.declared.stop.Stop.TheVariants.{NoMemory};
ghost use Rattle.run_texts.specs.Smoke.{smoke_text};
ghost use Rattle.run_call.specs.Calls.{asked_by, status_of};
ghost use Rattle.run_call.specs.Found.{IsFound};
ghost use Rattle.run_call.specs.Smoke.{IsSmokeStop, SmokeTests};
ghost use Rattle.run_call.specs.Tested.{IsTested};

use crate::call::Status;
use crate::judge::{Judged, told};
use crate::searching::true_answer;
use judge_verdicts::{LinedPairs, lined_laws, verdict_over};
use run_ring::{ring_files, ring_job};
use run_stages::{Accepted, Stop, read_all};
use run_texts::smoke_text;
use run_words::Job;
use states_core::Behaviour;
use states_layers::Answer;
use states_verdicts::Verdict;
use std::alloc::Global;
use steps_lined::held_so;

/// What the smoke test over so many lines calls for.
pub(crate) fn judge_smoke(alloc: Global, lines: u32) -> Result<Judged, Stop>
    requires { 1 ≤ lines }
    ensures runs { IfOk result (λ j. SmokeTests lines j.status (string_bytes j.report)) }
    ensures stopped { IfErr result (IsSmokeStop lines) }
{
    let job = ring_job(alloc)?;
    let mut files = ring_files(alloc, lines)?;
    let accepted = read_all(alloc, &job, &mut files)?;
    held_so(&accepted.spec, &accepted.lined);
    answer_smoke(alloc, lines, &job, &accepted)
}

/// What is true of the module beside its log.
fn answer_smoke(alloc: Global, lines: u32, job: &Job, accepted: &Accepted) -> Result<Judged, Stop>
    requires meets { JobMeets job.now }
    requires ready { IsReadyOver accepted.now.spec accepted.now.lined }
    requires few_lines { lines_of accepted.now.lined ≤ 200000 }
    requires one_order { AreTellable accepted.now.lined }
    requires unasked { job.now.why ≡ None }
    requires no_near { job.now.near ≡ None }
    ensures tested { IfOk result (λ j. IsTested lines job.now accepted.now.program accepted.now.config accepted.now.spec accepted.now.lined j.status
        (string_bytes j.report)) }
    ensures stopped { IfErr result (λ stop. stop ≡ NoMemory) }
{
    let answer = true_answer(alloc, job, accepted)?;
    match explaining(&answer) {
        Some((behaviour, widest)) => told_valid(alloc, lines, job, accepted, behaviour, widest),
        None => told(alloc, job, accepted, &answer),
    }
}

/// The behaviour that explains the log, and the number of states in the widest layer; none where the answer is another one.
fn explaining(answer: &Answer) -> Option<(&Behaviour, u32)>
    ensures { MatchOption result (status_of answer.now ≢ Status.Done) (λ found. answer.now ≡ Explained found.0.now found.1) }
{
    match answer {
        Answer::Explained { behaviour, widest } => Some((behaviour, *widest)),
        Answer::NotExplained { .. } => None,
        Answer::NoInitial => None,
        Answer::InitFault { .. } => None,
        Answer::Fault { .. } => None,
        Answer::AssumeFault { .. } => None,
        Answer::AssumeFalse { .. } => None,
        Answer::LayerLimit { .. } => None,
        Answer::TotalLimit { .. } => None,
    }
}

/// The smoke test's report of the behaviour that explains the log, whose states are judged again.
fn told_valid(
    alloc: Global,
    lines: u32,
    job: &Job,
    accepted: &Accepted,
    behaviour: &Behaviour,
    widest: u32,
) -> Result<Judged, Stop>
    requires meets { JobMeets job.now }
    requires ready { IsReadyOver accepted.now.spec accepted.now.lined }
    requires few_lines { lines_of accepted.now.lined ≤ 200000 }
    requires one_order { AreTellable accepted.now.lined }
    requires explained { IsFound accepted.now.spec (asked_by job.now.options) accepted.now.lined (Explained behaviour.now widest) }
    ensures tested { IfOk result (λ j. IsTested lines job.now accepted.now.program accepted.now.config accepted.now.spec accepted.now.lined j.status
        (string_bytes j.report)) }
    ensures stopped { IfErr result (λ stop. stop ≡ NoMemory) }
{
    let pairs = LinedPairs {
        spec: &accepted.spec,
        lined: &accepted.lined,
        stutter: job.options.stutter,
        within: job.options.within,
        limit: job.options.limit,
    };
    lined_laws(&accepted.spec, &accepted.lined);
    let verdict = verdict_over(alloc, &pairs, behaviour)?;
    match verdict {
        Verdict::Valid => tell_smoke(alloc, lines, accepted, behaviour, widest),
        Verdict::Invalid { .. } => unreachable!(),
        Verdict::Fault { .. } => unreachable!(),
    }
}

/// The status and the report of the smoke test, the states being valid.
fn tell_smoke(
    alloc: Global,
    lines: u32,
    accepted: &Accepted,
    behaviour: &Behaviour,
    widest: u32,
) -> Result<Judged, Stop>
    ensures status { IfOk result (λ j. j.status ≡ Status.Done) }
    ensures report { IfOk result (λ j. string_bytes j.report ≡ smoke_text lines widest accepted.now.spec.variables behaviour.now) }
    ensures stopped { IfErr result (λ stop. stop ≡ NoMemory) }
{
    let names = &accepted.spec.variables;
    Ok(Judged {
        status: Status::Done,
        report: smoke_text(alloc, lines, widest as usize, names, behaviour)?,
    })
}
