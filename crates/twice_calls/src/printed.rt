//! What is printed of an accepted job.

ghost use Rattle.std.specs.Prelude.{◌≤◌};
ghost use Rattle.steps_lined.specs.Beside.{IsReadyOver, lines_of};
ghost use Rattle.run_reading_defs.specs.Reaches.{AllRead};
ghost use Rattle.run_words.specs.Words.{JobMeets};
ghost use Rattle.twice_calls.specs.Printed.{IsCheckedValid, PrintsValid};

use base_core::Files;
use reading_laws::unchecked_law;
use run_stages::Accepted;
use run_wide::passing_laws;
use run_words::Job;
use steps_lined::held_so;
use twice_printed::printed_valid_law;

/// What `validate` prints of an accepted job whose logs are explained is a file of states, and the states that it says are valid: `check` finds them so.
pub fn printed_is_valid<F: Files>(files: &F, job: &Job, accepted: &Accepted)
    requires meets { JobMeets job.now }
    requires read { AllRead (F.holds files.now) job.now accepted.now.program accepted.now.config accepted.now.spec accepted.now.lined }
    requires ready { IsReadyOver accepted.now.spec accepted.now.lined }
    requires few_lines { lines_of accepted.now.lined ≤ 200000 }
    ensures valid { PrintsValid job.now accepted.now.program accepted.now.config accepted.now.spec accepted.now.lined }
    ensures checked { IsCheckedValid job.now accepted.now.program accepted.now.config accepted.now.spec accepted.now.lined }
{
    let _ = files;
    printed_valid_law(&accepted.spec, &accepted.lined);
    unchecked_law();
    passing_laws();
    held_so(&accepted.spec, &accepted.lined);
}
