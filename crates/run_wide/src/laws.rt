ghost use Rattle.run_wide.specs.Laws.{PassedAreLines, PassedAreSpelled, PassedAreWellFormed, PassedHaveFiles, PassedHaveOneForm};

use names_resolved_laws::{left_is_well_formed, spelled_is_well_formed};

/// What `resolve_read` makes of a program and a configuration is as `resolve` asks for where they are, and speaks of the same files. Each thing that is
/// passed over is one line of the report.
pub fn passing_laws()
    ensures well_formed { PassedAreWellFormed }
    ensures spelled { PassedAreSpelled }
    ensures form { PassedHaveOneForm }
    ensures files { PassedHaveFiles }
    ensures lines { PassedAreLines }
{
    left_is_well_formed();
    spelled_is_well_formed();
}
