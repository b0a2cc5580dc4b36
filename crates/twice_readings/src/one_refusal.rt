ghost use Rattle.twice_readings.specs.Refusals.{RefusalIsOne};

use actions_form_laws::{operator_law, sound_law};
use actions_forms::form_laws;
use names_expanded_laws::{expanded_laws, wide_load_laws};
use names_load_laws::configuration_laws;
use names_pruning::pruning_laws;
use names_resolved_laws::resolved_laws;
use names_whole_programs::expansion_laws;
use reading_laws::{no_refusal_laws, one_program_laws};
use reading_wide_configuration::one_configuration_by;
use reading_wide_modules::wide_program_laws;
use run_wide::passing_laws;
use states_files::state_laws;
use twice_logs::{alike_lined_laws, alike_logs_laws};
use twice_outcomes::alike_action_laws;
use twice_tables::outcome_laws;

/// Where files tell what they hold, two refusals of a job are one, if two of its modules are one, and two for a piece that is needed and was not read.
pub fn one_refusal_law()
    ensures { RefusalIsOne }
{
    one_program_laws();
    no_refusal_laws();
    one_configuration_by();
    wide_program_laws();
    wide_load_laws();
    expanded_laws();
    expansion_laws();
    configuration_laws();
    pruning_laws();
    passing_laws();
    resolved_laws();
    outcome_laws();
    alike_action_laws();
    form_laws();
    sound_law();
    operator_law();
    alike_logs_laws();
    alike_lined_laws();
    state_laws();
}
