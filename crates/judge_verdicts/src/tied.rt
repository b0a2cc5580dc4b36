ghost use Rattle.std.specs.Prelude.{◌≤◌, All, IfOk, length};
ghost use Rattle.steps_lines_defs.specs.Says.{IsState};
ghost use Rattle.base_cuts.specs.Cuts.{total};
ghost use Rattle.base_cuts.specs.Orders.{sizes};
ghost use Rattle.logs_tied.specs.Lines.{AreTied};
ghost use Rattle.logs_tied.specs.Named.{IsNamedLog};
ghost use Rattle.steps_tied.specs.Beside.{IsReadyBeside};
ghost use Rattle.steps_ready_defs.specs.Beside.{asked};
ghost use Rattle.states_verdicts.specs.Verdicts.{IsVerdict};
ghost use Rattle.judge_pairs.specs.Filling.{pair_asks};
ghost use Rattle.judge_verdicts.specs.Tied.{IsTiedVerdict};

use crate::verdict::verdict_on;
use judge_pairs::SpecPairs;
use logs_tied::{Logs, named_log};
use logs_updates::Log;
use names_terms::Spec;
use states_core::Behaviour;
use states_verdicts::Verdict;
use std::alloc::{AllocError, Global};

/// A specification beside several logs, against which given states are judged, and what a search is asked for beside them: whether a line without an
/// event may leave the state as it is, how many steps there may be from one line's state to the next line's, and how many entries a layer may have.
#[derive(Clone, Copy, Drop)]
pub struct TiedPairs<'a> {
    pub spec: &'a Spec,
    pub logs: &'a Logs,
    pub stutter: bool,
    pub within: u32,
    pub limit: u32,
    pub ghost some_step: { 1 ≤ within },
    pub ghost few_steps: { within ≤ 8 },
}

/// The verdict on states of the specification, each behind the one before it, beside all lines in the order that their marks name.
pub fn tied_verdict(
    alloc: Global,
    pairs: &TiedPairs<'_>,
    states: &Behaviour,
) -> Result<Verdict, AllocError>
    requires ready { IsReadyBeside pairs.now.spec.now pairs.now.logs.now }
    requires tied { AreTied pairs.now.logs.now }
    requires few { total (sizes pairs.now.logs.now.order) ≤ 200000 }
    requires states { All (λ x. IsState (length pairs.now.spec.now.variables) x.state) states.now }
    ensures { IfOk result (IsTiedVerdict pairs.now.spec.now pairs.now.logs.now (asked pairs.now.stutter pairs.now.within pairs.now.limit) states.now) }
{
    let log = named_log(alloc, pairs.logs, states)?;
    verdict_beside(alloc, pairs, &log, states)
}

/// The verdict beside the log that the marks name.
fn verdict_beside(
    alloc: Global,
    pairs: &TiedPairs<'_>,
    log: &Log,
    states: &Behaviour,
) -> Result<Verdict, AllocError>
    requires ready { IsReadyBeside pairs.now.spec.now pairs.now.logs.now }
    requires tied { AreTied pairs.now.logs.now }
    requires few { total (sizes pairs.now.logs.now.order) ≤ 200000 }
    requires named { IsNamedLog pairs.now.logs.now states.now log.now }
    requires states { All (λ x. IsState (length pairs.now.spec.now.variables) x.state) states.now }
    ensures { IfOk result (IsVerdict (pair_asks pairs.now.spec.now log.now (asked pairs.now.stutter pairs.now.within pairs.now.limit)) states.now) }
{
    let beside = SpecPairs {
        spec: pairs.spec,
        log,
        stutter: pairs.stutter,
        within: pairs.within,
        limit: pairs.limit,
    };
    verdict_on(alloc, &beside, states)
}
