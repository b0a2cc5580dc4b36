ghost use Rattle.twice_readings.specs.Readings.{GivenIsOne, GivenStaysWide, ReadingIsOne, StrictStaysWide, WideIsStrict};

use names_expanded_laws::{expanded_laws, wide_load_laws};
use names_load_laws::configuration_laws;
use names_pruning::pruning_laws;
use names_resolved_laws::resolved_laws;
use names_whole_programs::expansion_laws;
use reading_laws::one_program_laws;
use reading_wide_configuration::one_configuration_by;
use reading_wide_modules::wide_program_laws;
use run_wide::passing_laws;
use states_files::state_laws;
use twice_logs::{alike_lined_laws, alike_logs_laws};
use twice_tables::outcome_laws;

/// Where files tell what they hold, each job reads one program and one configuration of them, and specifications and logs that differ by the
/// numbers of definitions alone; and a file of states says the same states beside each of them.
pub fn reading_laws()
    ensures reading { ReadingIsOne }
    ensures given { GivenIsOne }
{
    one_program_laws();
    wide_program_laws();
    wide_load_laws();
    expanded_laws();
    expansion_laws();
    configuration_laws();
    pruning_laws();
    passing_laws();
    resolved_laws();
    outcome_laws();
    alike_logs_laws();
    alike_lined_laws();
    state_laws();
}

/// What a job reads without the word `--wide` it reads with it too: the same program, configuration, specification, log and states. Where files tell what they
/// hold, it reads nothing else with it.
pub fn strict_stays_wide()
    ensures stays { StrictStaysWide }
    ensures given { GivenStaysWide }
    ensures only { WideIsStrict }
{
    one_configuration_by();
    expansion_laws();
    reading_laws();
}
