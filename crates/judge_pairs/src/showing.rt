ghost use Rattle.std.specs.Prelude.{◌↔◌, IsTrue};
ghost use Rattle.steps_lines_defs.specs.Asks.{AreSeen, IsSeen};

use logs_updates::{See, seen};
use states_core::State;

/// Whether all that is seen stands at its path in the state.
pub fn are_seen(sees: &[See], state: &State) -> bool
    ensures { IsTrue result ↔ AreSeen sees.now state.now }
{
    for see in sees {
        if !is_seen(see, state) {
            return false;
        }
    }
    true
}

fn is_seen(see: &See, state: &State) -> bool
    ensures { IsTrue result ↔ IsSeen state.now see.now }
{
    match state.get(see.path.variable().0 as usize) {
        Some(value) => seen(see, value),
        None => false,
    }
}
