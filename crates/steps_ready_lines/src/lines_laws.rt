ghost use Rattle.steps_ready_lines.specs.Lines.{FilesAreReady, LinedAreReady, LinesAreReady, LogsAreReady, SeesAreReady, TogetherReady};

use actions_form_laws::operator_law;
use actions_forms::form_laws;

/// Each line of a log that was read under the names of a specification changes and sees its variables, and its event can be taken.
pub fn logs_are_ready()
    ensures lines { LinesAreReady }
    ensures sees { SeesAreReady }
    ensures logs { LogsAreReady }
    ensures files { FilesAreReady }
    ensures together { TogetherReady }
    ensures lined { LinedAreReady }
{
    form_laws();
    operator_law();
}
