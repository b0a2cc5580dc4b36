ghost use Rattle.twice_readings.specs.NotRefused.{GivenNotRefused, ReadNotRefused};

use actions_form_laws::{operator_law, sound_law};
use actions_forms::form_laws;
use names_expanded_laws::{expanded_laws, wide_load_laws};
use names_load_laws::configuration_laws;
use names_pruning::pruning_laws;
use names_resolved_laws::resolved_laws;
use names_whole_programs::expansion_laws;
use reading_laws::{no_refusal_laws, one_program_laws};
use reading_wide_modules::wide_program_laws;
use run_wide::passing_laws;
use states_files::state_laws;
use twice_logs::{alike_lined_laws, alike_logs_laws};
use twice_outcomes::alike_action_laws;
use twice_tables::outcome_laws;

/// Where files tell what they hold, a job that they give a specification and a log is not refused, nor, with the states of a file, one whose
/// states are read.
pub fn not_refused_laws()
    ensures read { ReadNotRefused }
    ensures given { GivenNotRefused }
{
    one_program_laws();
    no_refusal_laws();
    wide_program_laws();
    wide_load_laws();
    expanded_laws();
    expansion_laws();
    configuration_laws();
    pruning_laws();
    passing_laws();
    resolved_laws();
    outcome_laws();
    alike_action_laws();
    form_laws();
    sound_law();
    operator_law();
    alike_logs_laws();
    alike_lined_laws();
    state_laws();
}
