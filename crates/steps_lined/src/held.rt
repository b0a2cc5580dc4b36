ghost use Rattle.std.specs.Prelude.{◌≤◌};
ghost use Rattle.steps_lined.specs.Beside.{IsReadyOver, lines_of};
ghost use Rattle.steps_lined.specs.Held.{IsHeldSo};

use crate::known::{known_places, known_texts};
use logs_tied::Lined;
use names_terms::Spec;

/// That a specification and the lines of its logs, from which its steps can be asked, are held so: as their types hold names and places.
pub fn held_so(spec: &Spec, lined: &Lined)
    requires ready { IsReadyOver spec.now lined.now }
    requires few_lines { lines_of lined.now ≤ 200000 }
    ensures { IsHeldSo spec.now lined.now }
{
    known_texts(&spec.variables);
    known_places(lined);
}
