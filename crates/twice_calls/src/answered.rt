//! What `check` answers on printed states.

ghost use Rattle.std.specs.Prelude.{◌≤◌};
ghost use Rattle.steps_lined.specs.Beside.{IsReadyOver, lines_of};
ghost use Rattle.run_reading_defs.specs.Reaches.{AllRead};
ghost use Rattle.run_words.specs.Words.{JobMeets};
ghost use Rattle.twice_calls.specs.Answered.{CheckAnswersValid, CheckIsValid};

use crate::assumption_laws::assumed_law;
use crate::own_place_laws::own_place_law;
use crate::printed::printed_is_valid;
use base_core::Files;
use judge_verdicts::lined_laws;
use run_stages::Accepted;
use run_words::Job;
use states_files::state_laws;
use twice_logs::alike_lined_laws;
use twice_readings::{not_refused_laws, reading_laws};

/// Where the report of `validate` on an accepted job whose logs are explained is the text of the file of states, whatever `check` comes to is VALID with
/// status 0, or a refusal of its reading; and where that text is not too long for such a file, nothing is refused. The job of `check` has what it likes
/// in place of what `validate` alone takes.
pub fn check_answers_valid<F: Files>(files: &F, job: &Job, accepted: &Accepted)
    requires meets { JobMeets job.now }
    requires read { AllRead (F.holds files.now) job.now accepted.now.program accepted.now.config accepted.now.spec accepted.now.lined }
    requires ready { IsReadyOver accepted.now.spec accepted.now.lined }
    requires few_lines { lines_of accepted.now.lined ≤ 200000 }
    ensures answers { CheckAnswersValid job.now accepted.now.program accepted.now.config accepted.now.spec accepted.now.lined }
    ensures valid { CheckIsValid job.now accepted.now.program accepted.now.config accepted.now.spec accepted.now.lined }
{
    printed_is_valid(files, job, accepted);
    lined_laws(&accepted.spec, &accepted.lined);
    own_place_law();
    assumed_law();
    alike_lined_laws();
    reading_laws();
    state_laws();
    not_refused_laws();
}
