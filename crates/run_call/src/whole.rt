ghost use Rattle.std.specs.Prelude.{◌≡◌, ◌≤◌, IfErr, IfOk, length, string_bytes};
ghost use Rattle.run_words.specs.Words.{JobMeets};
ghost use Rattle.run_stages.specs.declared.stop.Stop.TheVariants.{NoMemory};
ghost use Rattle.logs_tied.specs.declared.logs.Lined.TheVariants.{Sequence};
ghost use Rattle.steps_ready_defs.specs.Beside.{IsReady};
ghost use Rattle.run_call.specs.Calls.{Answers, asked_by};
ghost use Rattle.run_why.specs.Searched.{IsSearched};

use crate::judge::{Judged, status_of};
use logs_updates::Log;
use names_terms::Spec;
use run_stages::{Accepted, Stop, all_files};
use run_texts::Labels;
use run_why::{Wanted, whole_report};
use run_words::Job;
use states_core::State;
use states_layers::{Searched, search_entries};
use std::alloc::Global;
use steps_source::{SpecSteps, small_law};

/// The status and the report of an answer beside one log, and what is told behind it, where the job asks for it.
pub(crate) fn told_whole(
    alloc: Global,
    job: &Job,
    accepted: &Accepted,
    log: &Log,
) -> Result<Judged, Stop>
    requires meets { JobMeets job.now }
    requires lined { accepted.now.lined ≡ Sequence log.now }
    requires ready { IsReady accepted.now.spec log.now }
    requires few_lines { length log.now.lines ≤ 200000 }
    ensures answers { IfOk result (λ j. Answers job.now accepted.now.program accepted.now.config accepted.now.spec accepted.now.lined j.status (string_bytes j.report)) }
    ensures stopped { IfErr result (λ stop. stop ≡ NoMemory) }
{
    let searched = search_log(alloc, job, &accepted.spec, log)?;
    let steps = SpecSteps {
        spec: &accepted.spec,
        log,
        stutter: job.options.stutter,
        within: job.options.within,
        limit: job.options.limit,
    };
    let files = all_files(alloc, &accepted.program, &accepted.config)?;
    let labels = Labels {
        files: &files,
        logs: &job.logs,
        variables: &accepted.spec.variables,
        unchecked: &accepted.spec.unchecked,
        lines: log.lines.len(),
        limit: job.options.limit,
    };
    let wanted = Wanted {
        why: job.why,
        near: job.near,
    };
    let status = status_of(&searched.answer);
    let report = whole_report(alloc, &labels, &steps, searched, wanted)?;
    Ok(Judged { status, report })
}

/// The answer of a search beside one log, and what the lines that are explained lead to, where that is not all of them.
fn search_log(alloc: Global, job: &Job, spec: &Spec, log: &Log) -> Result<Searched<State>, Stop>
    requires meets { JobMeets job.now }
    requires ready { IsReady spec.now log.now }
    requires few_lines { length log.now.lines ≤ 200000 }
    ensures searched { IfOk result (λ searched. IsSearched spec.now log.now (asked_by job.now.options) searched.answer searched.last.items) }
    ensures stopped { IfErr result (λ stop. stop ≡ NoMemory) }
{
    let steps = SpecSteps {
        spec,
        log,
        stutter: job.options.stutter,
        within: job.options.within,
        limit: job.options.limit,
    };
    small_law(&steps);
    let searched = search_entries(alloc, &steps)?;
    Ok(searched)
}
