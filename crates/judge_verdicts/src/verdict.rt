ghost use Rattle.std.specs.Prelude.{All, IfOk, length};
ghost use Rattle.steps_lines_defs.specs.Says.{IsState};
ghost use Rattle.states_verdicts.specs.Verdicts.{IsVerdict};
ghost use Rattle.steps_ready_defs.specs.Beside.{IsReady, asked};
ghost use Rattle.judge_pairs.specs.Filling.{pair_asks};

use judge_pairs::{SpecPairs, small_law};
use states_core::Behaviour;
use states_verdicts::{Verdict, check};
use std::alloc::{AllocError, Global};

/// The verdict on states of the specification, each behind the one before it.
pub fn verdict_on(
    alloc: Global,
    pairs: &SpecPairs<'_>,
    states: &Behaviour,
) -> Result<Verdict, AllocError>
    requires ready { IsReady pairs.now.spec.now pairs.now.log.now }
    requires states { All (λ x. IsState (length pairs.now.spec.now.variables) x.state) states.now }
    ensures { IfOk result (IsVerdict (pair_asks pairs.now.spec.now pairs.now.log.now (asked pairs.now.stutter pairs.now.within pairs.now.limit)) states.now) }
{
    small_law(pairs);
    check(alloc, pairs, states)
}
