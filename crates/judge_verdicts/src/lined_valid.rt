ghost use Rattle.steps_lines_defs.specs.Logs.{Asked};
ghost use Rattle.steps_lined.specs.Beside.{IsReadyOver};
ghost use Rattle.judge_verdicts.specs.LinedLaws.{ExplainedAreStates, ExplainedIsJudgedValid, HaveOneOf};

use actions_form_laws::staying_laws;
use judge_truth::fault_law;
use logs_tied::Lined;
use names_terms::Spec;

/// The behaviour of a true answer EXPLAINED is valid, each of its states has a value for each variable, and given states have one verdict.
pub fn lined_laws(spec: &Spec, lined: &Lined)
    requires { IsReadyOver spec.now lined.now }
    ensures valid { (asked : Asked) → ExplainedIsJudgedValid spec.now lined.now asked }
    ensures states { (asked : Asked) → ExplainedAreStates spec.now lined.now asked }
    ensures one { (asked : Asked) → HaveOneOf spec.now lined.now asked }
{
    staying_laws();
    fault_law();
}
