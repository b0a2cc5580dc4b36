//! What is true of a specification beside the lines of its logs: of one log by a search over states, of logs whose lines may stand in several orders by one
//! over cuts of the logs.

ghost use Rattle.std.specs.Prelude.{◌≡◌, ◌≤◌, IfErr, IfOk};
ghost use Rattle.logs_tied.specs.declared.logs.Lined.TheVariants.{Sequence, Tied};
ghost use Rattle.steps_lined.specs.Beside.{IsReadyOver, lines_of};
ghost use Rattle.run_words.specs.Words.{JobMeets};
ghost use Rattle.run_stages.specs.declared.stop.Stop.TheVariants.{NoMemory};
ghost use Rattle.run_call.specs.Calls.{asked_by};
ghost use Rattle.run_call.specs.Found.{IsFirstUnassumed, IsFound};

use logs_tied::{Lined, Logs};
use logs_updates::Log;
use names_terms::Spec;
use run_stages::{Accepted, Stop};
use run_words::Job;
use states_layers::{Answer, judge, search_layers};
use std::alloc::Global;
use steps_cut_source::{CutSteps, small_law as small_over_cuts};
use steps_source::{SpecSteps, small_law};

/// The answer of a search for what explains the lines.
pub(crate) fn true_answer(alloc: Global, job: &Job, accepted: &Accepted) -> Result<Answer, Stop>
    requires meets { JobMeets job.now }
    requires ready { IsReadyOver accepted.now.spec accepted.now.lined }
    requires few_lines { lines_of accepted.now.lined ≤ 200000 }
    ensures answer { IfOk result (IsFound accepted.now.spec (asked_by job.now.options) accepted.now.lined) }
    ensures stopped { IfErr result (λ stop. stop ≡ NoMemory) }
{
    match &accepted.lined {
        Lined::Sequence(log) => answer_in_order(alloc, job, &accepted.spec, log),
        Lined::Tied(logs) => answer_over_cuts(alloc, job, &accepted.spec, logs),
    }
}

/// The answer beside one log.
fn answer_in_order(alloc: Global, job: &Job, spec: &Spec, log: &Log) -> Result<Answer, Stop>
    requires meets { JobMeets job.now }
    requires ready { IsReadyOver spec.now (Sequence log.now) }
    requires few_lines { lines_of (Sequence log.now) ≤ 200000 }
    ensures answer { IfOk result (IsFound spec.now (asked_by job.now.options) (Sequence log.now)) }
    ensures stopped { IfErr result (λ stop. stop ≡ NoMemory) }
{
    let steps = SpecSteps {
        spec,
        log,
        stutter: job.options.stutter,
        within: job.options.within,
        limit: job.options.limit,
    };
    small_law(&steps);
    let answer = search_layers(alloc, &steps)?;
    Ok(answer)
}

/// The answer over cuts of several logs.
fn answer_over_cuts(alloc: Global, job: &Job, spec: &Spec, logs: &Logs) -> Result<Answer, Stop>
    requires meets { JobMeets job.now }
    requires ready { IsReadyOver spec.now (Tied logs.now) }
    requires few_lines { lines_of (Tied logs.now) ≤ 200000 }
    ensures answer { IfOk result (IsFound spec.now (asked_by job.now.options) (Tied logs.now)) }
    ensures stopped { IfErr result (λ stop. stop ≡ NoMemory) }
{
    let steps = CutSteps {
        spec,
        logs,
        stutter: job.options.stutter,
        within: job.options.within,
        limit: job.options.limit,
    };
    small_over_cuts(&steps);
    let answer = search_layers(alloc, &steps)?;
    Ok(answer)
}

/// The answer on the first assumption that is not TRUE, or none.
pub(crate) fn unassumed(
    alloc: Global,
    job: &Job,
    accepted: &Accepted,
) -> Result<Option<Answer>, Stop>
    requires meets { JobMeets job.now }
    requires ready { IsReadyOver accepted.now.spec accepted.now.lined }
    requires few_lines { lines_of accepted.now.lined ≤ 200000 }
    ensures assumed { IfOk result (IsFirstUnassumed accepted.now.spec (asked_by job.now.options) accepted.now.lined) }
    ensures stopped { IfErr result (λ stop. stop ≡ NoMemory) }
{
    match &accepted.lined {
        Lined::Sequence(log) => unassumed_in_order(alloc, job, &accepted.spec, log),
        Lined::Tied(logs) => unassumed_over_cuts(alloc, job, &accepted.spec, logs),
    }
}

/// The same beside one log.
fn unassumed_in_order(
    alloc: Global,
    job: &Job,
    spec: &Spec,
    log: &Log,
) -> Result<Option<Answer>, Stop>
    requires meets { JobMeets job.now }
    requires ready { IsReadyOver spec.now (Sequence log.now) }
    requires few_lines { lines_of (Sequence log.now) ≤ 200000 }
    ensures assumed { IfOk result (IsFirstUnassumed spec.now (asked_by job.now.options) (Sequence log.now)) }
    ensures stopped { IfErr result (λ stop. stop ≡ NoMemory) }
{
    let steps = SpecSteps {
        spec,
        log,
        stutter: job.options.stutter,
        within: job.options.within,
        limit: job.options.limit,
    };
    let answer = judge(alloc, &steps)?;
    Ok(answer)
}

/// The same beside several logs.
fn unassumed_over_cuts(
    alloc: Global,
    job: &Job,
    spec: &Spec,
    logs: &Logs,
) -> Result<Option<Answer>, Stop>
    requires meets { JobMeets job.now }
    requires ready { IsReadyOver spec.now (Tied logs.now) }
    requires few_lines { lines_of (Tied logs.now) ≤ 200000 }
    ensures assumed { IfOk result (IsFirstUnassumed spec.now (asked_by job.now.options) (Tied logs.now)) }
    ensures stopped { IfErr result (λ stop. stop ≡ NoMemory) }
{
    let steps = CutSteps {
        spec,
        logs,
        stutter: job.options.stutter,
        within: job.options.within,
        limit: job.options.limit,
    };
    let answer = judge(alloc, &steps)?;
    Ok(answer)
}
