ghost use Rattle.twice_readings.specs.LetRows.{AcceptedHaveOneOfLets, ResolvedHaveOneOfLets};

use names_expanded_laws::expanded_laws;
use names_load_laws::configuration_laws;
use names_outcome_laws::lets_law;
use run_wide::passing_laws;
use twice_tables::outcome_laws;

/// Beside each specification that a program comes to stands one that is alike to it, and whose table has no definitions without a name but those of LETs, each of
/// one. So it is of each accepted job.
pub fn let_rows_law()
    ensures resolved { ResolvedHaveOneOfLets }
    ensures accepted { AcceptedHaveOneOfLets }
{
    lets_law();
    outcome_laws();
    expanded_laws();
    passing_laws();
    configuration_laws();
}
