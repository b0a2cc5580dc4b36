ghost use Rattle.std.specs.Prelude.{◌≤◌, All, IfOk, length};
ghost use Rattle.steps_lines_defs.specs.Says.{IsState};
ghost use Rattle.logs_tied.specs.declared.logs.Lined.TheVariants.{Sequence, Tied};
ghost use Rattle.steps_ready_defs.specs.Beside.{asked};
ghost use Rattle.steps_lined.specs.Beside.{IsReadyOver, lines_of};
ghost use Rattle.judge_verdicts.specs.Lined.{IsJudgedOf};

use crate::tied::{TiedPairs, tied_verdict};
use crate::verdict::verdict_on;
use judge_pairs::SpecPairs;
use logs_tied::{Lined, Logs};
use logs_updates::Log;
use names_terms::Spec;
use states_core::Behaviour;
use states_verdicts::Verdict;
use std::alloc::{AllocError, Global};

/// A specification beside the lines of all logs, against which given states are judged, and what a search is asked for beside them: whether a line without
/// an event may leave the state as it is, how many steps there may be from one line's state to the next line's, and how many members a layer may have.
#[derive(Clone, Copy, Drop)]
pub struct LinedPairs<'a> {
    pub spec: &'a Spec,
    pub lined: &'a Lined,
    pub stutter: bool,
    pub within: u32,
    pub limit: u32,
    pub ghost few_lines: { lines_of lined.now ≤ 200000 },
    pub ghost some_step: { 1 ≤ within },
    pub ghost few_steps: { within ≤ 8 },
}

/// The verdict on states of the specification, each behind the one before it.
pub fn verdict_over(
    alloc: Global,
    pairs: &LinedPairs<'_>,
    states: &Behaviour,
) -> Result<Verdict, AllocError>
    requires ready { IsReadyOver pairs.now.spec.now pairs.now.lined.now }
    requires states { All (λ x. IsState (length pairs.now.spec.now.variables) x.state) states.now }
    ensures { IfOk result (IsJudgedOf pairs.now.spec.now (asked pairs.now.stutter pairs.now.within pairs.now.limit) pairs.now.lined.now states.now) }
{
    match pairs.lined {
        Lined::Sequence(log) => verdict_in_order(alloc, pairs, log, states),
        Lined::Tied(logs) => verdict_by_marks(alloc, pairs, logs, states),
    }
}

/// The verdict beside one log.
fn verdict_in_order(
    alloc: Global,
    pairs: &LinedPairs<'_>,
    log: &Log,
    states: &Behaviour,
) -> Result<Verdict, AllocError>
    requires ready { IsReadyOver pairs.now.spec.now (Sequence log.now) }
    requires few { lines_of (Sequence log.now) ≤ 200000 }
    requires states { All (λ x. IsState (length pairs.now.spec.now.variables) x.state) states.now }
    ensures { IfOk result (IsJudgedOf pairs.now.spec.now (asked pairs.now.stutter pairs.now.within pairs.now.limit) (Sequence log.now) states.now) }
{
    let beside = SpecPairs {
        spec: pairs.spec,
        log,
        stutter: pairs.stutter,
        within: pairs.within,
        limit: pairs.limit,
    };
    verdict_on(alloc, &beside, states)
}

/// The verdict beside several logs, in the order that the marks of the states name.
fn verdict_by_marks(
    alloc: Global,
    pairs: &LinedPairs<'_>,
    logs: &Logs,
    states: &Behaviour,
) -> Result<Verdict, AllocError>
    requires ready { IsReadyOver pairs.now.spec.now (Tied logs.now) }
    requires few { lines_of (Tied logs.now) ≤ 200000 }
    requires states { All (λ x. IsState (length pairs.now.spec.now.variables) x.state) states.now }
    ensures { IfOk result (IsJudgedOf pairs.now.spec.now (asked pairs.now.stutter pairs.now.within pairs.now.limit) (Tied logs.now) states.now) }
{
    let beside = TiedPairs {
        spec: pairs.spec,
        logs,
        stutter: pairs.stutter,
        within: pairs.within,
        limit: pairs.limit,
    };
    tied_verdict(alloc, &beside, states)
}
