ghost use Rattle.judge_verdicts.specs.Explained.{BehavesOverStates, ExplainedIsValid};
ghost use Rattle.steps_ready_defs.specs.Beside.{IsReady, asked};

use judge_pairs::{SpecPairs, monotone_law};
use states_verdicts::found_law;

/// The behaviour of a true answer EXPLAINED is valid, and each of its states has a value for each variable.
pub fn explained_law(pairs: &SpecPairs<'_>)
    requires { IsReady pairs.now.spec.now pairs.now.log.now }
    ensures valid { ExplainedIsValid pairs.now.spec.now pairs.now.log.now (asked pairs.now.stutter pairs.now.within pairs.now.limit) }
    ensures states { BehavesOverStates pairs.now.spec.now pairs.now.log.now (asked pairs.now.stutter pairs.now.within pairs.now.limit) }
{
    monotone_law(pairs);
    found_law(pairs);
}
