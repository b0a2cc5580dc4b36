ghost use Rattle.steps_lines_defs.specs.Logs.{Asked};
ghost use Rattle.logs_tied.specs.Lines.{AreTied};
ghost use Rattle.steps_tied.specs.Beside.{IsReadyBeside};
ghost use Rattle.judge_verdicts.specs.TiedLaws.{BehavesOverTied, HaveOneTied, TiedExplainedIsValid};

use actions_form_laws::staying_laws;
use judge_truth::fault_law;
use logs_tied::Logs;
use names_terms::Spec;

/// The behaviour of a true answer EXPLAINED over cuts is valid, each of its states has a value for each variable, and given states have one verdict.
pub fn tied_verdict_laws(spec: &Spec, logs: &Logs)
    requires ready { IsReadyBeside spec.now logs.now }
    requires tied { AreTied logs.now }
    ensures valid { (asked : Asked) → TiedExplainedIsValid spec.now logs.now asked }
    ensures states { (asked : Asked) → BehavesOverTied spec.now logs.now asked }
    ensures one { (asked : Asked) → HaveOneTied spec.now logs.now asked }
{
    staying_laws();
    fault_law();
}
