ghost use Rattle.twice_calls.specs.Assumption.{AssumedAreNotUnassumed};

use eval_laws::outcome_laws;

/// Where every assumption is TRUE, no answer is true that names one which faults or is FALSE.
pub fn assumed_law()
    ensures { AssumedAreNotUnassumed }
{
    outcome_laws();
}
