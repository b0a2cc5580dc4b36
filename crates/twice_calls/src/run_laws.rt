ghost use Rattle.twice_calls.specs.AfterExplained.{ChecksAfter, OneMoreIsKept};
ghost use Rattle.twice_calls.specs.Decided.{RunsDecide};

use crate::assumption_laws::assumed_law;
use crate::own_place_laws::own_place_law;
use crate::unseen_laws::unseen_law;
use actions_form_laws::staying_laws;
use judge_truth::fault_law;
use reading_laws::unchecked_law;
use run_wide::passing_laws;
use run_words::one_command;
use states_files::state_laws;
use steps_tied::tied_laws;
use twice_logs::alike_lined_laws;
use twice_printed::printed_law;
use twice_readings::{not_refused_laws, reading_laws};

/// Where all texts of a job are accepted, no count of faults rises and nothing hinders a verdict, `validate` answers EXPLAINED, NOT EXPLAINED or NO INITIAL STATE,
/// as it is true; or memory is wanting.
pub fn decided_law()
    ensures { RunsDecide }
{
    one_command();
    reading_laws();
    alike_lined_laws();
    not_refused_laws();
}

/// The files before and one more hold its text under its name, where the name is new, and under each other name what they held.
pub fn kept_law()
    ensures { OneMoreIsKept }
{}

/// Where `validate` ends with status 0, its report tells EXPLAINED, and each `check` of it ends with VALID, but for want of memory and devices that fail.
pub fn check_law()
    ensures { ChecksAfter }
{
    one_command();
    unseen_law();
    reading_laws();
    alike_lined_laws();
    not_refused_laws();
    staying_laws();
    fault_law();
    tied_laws();
    printed_law();
    unchecked_law();
    passing_laws();
    own_place_law();
    assumed_law();
    state_laws();
}
