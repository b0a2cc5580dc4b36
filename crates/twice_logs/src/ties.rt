ghost use Rattle.twice_logs.specs.Ties.{TiedAnswersAlike, TiedVerdictsAlike};

use crate::steps::alike_steps_laws;

/// Over two specifications that are alike, beside several logs that are alike, the same answers and verdicts are true.
pub fn alike_tied_laws()
    ensures answers { TiedAnswersAlike }
    ensures verdicts { TiedVerdictsAlike }
{
    alike_steps_laws();
}
