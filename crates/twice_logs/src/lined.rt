ghost use Rattle.twice_logs.specs.Lined.{LinedAnswersAlike, LinedAreAlike, LinedVerdictsAlike};

use crate::logs::alike_logs_laws;
use crate::steps::alike_steps_laws;
use crate::ties::alike_tied_laws;

/// Files that are alike have lines that are alike, and beside them two specifications that are alike have the same answers and verdicts.
pub fn alike_lined_laws()
    ensures lines { LinedAreAlike }
    ensures answers { LinedAnswersAlike }
    ensures verdicts { LinedVerdictsAlike }
{
    alike_logs_laws();
    alike_steps_laws();
    alike_tied_laws();
}
