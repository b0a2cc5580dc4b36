ghost use Rattle.twice_printed.specs.PrintedStates.{PrintedIsValid};
ghost use Rattle.steps_lines_defs.specs.Logs.{Asked};
ghost use Rattle.steps_lined.specs.Beside.{IsReadyOver};

use crate::state_files_laws::printed_law;
use judge_verdicts::lined_laws;
use logs_tied::Lined;
use names_terms::Spec;
use steps_tied::tied_laws;

/// The report of logs that are explained is a file of states, and the states that it says are valid.
pub fn printed_valid_law(spec: &Spec, lined: &Lined)
    requires { IsReadyOver spec.now lined.now }
    ensures { (asked : Asked) → PrintedIsValid spec.now lined.now asked }
{
    lined_laws(spec, lined);
    tied_laws();
    printed_law();
}
