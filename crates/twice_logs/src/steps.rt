ghost use Rattle.twice_logs.specs.Steps.{AnswersAlike, AskAlike, VerdictsAlike};

use twice_outcomes::{alike_action_laws, alike_outcome_laws};

/// Over two specifications that are alike, beside logs that are alike, the same is asked of states, and the same answers and verdicts are true.
pub fn alike_steps_laws()
    ensures asks { AskAlike }
    ensures answers { AnswersAlike }
    ensures verdicts { VerdictsAlike }
{
    alike_outcome_laws();
    alike_action_laws();
}
