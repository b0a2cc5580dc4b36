ghost use Rattle.twice_outcomes.specs.Actions.{FailsAlike, FixesAlike, HoldsAlike, OutcomesAlike, WholeAlike};

use crate::outcomes_laws::alike_outcome_laws;

/// Of two actions that differ by the numbers of definitions alone, each over its table, the one holds where the other does, fails as the other
/// does, and leaves the same fixed or has the same wrong with its form.
pub fn alike_action_laws()
    ensures holds { HoldsAlike }
    ensures fails { FailsAlike }
    ensures outcomes { OutcomesAlike }
    ensures fixes { FixesAlike }
    ensures whole { WholeAlike }
{
    alike_outcome_laws();
}
