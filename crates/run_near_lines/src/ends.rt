//! The ends of all branches of a line.

ghost use Rattle.std.specs.Prelude.{IfOk, length};
ghost use Rattle.steps_lines_defs.specs.Says.{IsState};
ghost use Rattle.steps_ready_defs.specs.Ready.{IsReadyLine, IsReadySpec};
ghost use Rattle.steps_why_not.specs.Results.{AreUpdated};
ghost use Rattle.steps_why_not.specs.Taken.{LeadsThere};
ghost use Rattle.run_near_lines.specs.Adding.{AreAllEnds, EndsReached};

use actions_form_laws::whole_law;
use base_core::NoMemory;
use logs_updates::Line;
use names_terms::Spec;
use states_core::{Partial, State};
use std::alloc::{AllocError, Global};
use steps_walk_laws::orderly_law;
use steps_why_branches::{Ended, Sparing};
use steps_why_not::line_ends;

/// More branches than any memory holds the ends of.
const ROOM: usize = u32::MAX as usize;

/// The ends of all branches of the line from the state, where some parts may be passed over.
pub(crate) fn all_ends(
    alloc: Global,
    spec: &Spec,
    line: &Line,
    from: &State,
    sparing: Sparing,
    places: &Partial,
) -> Result<Vec<Ended>, NoMemory>
    requires ready { IsReadySpec spec.now }
    requires fits { IsReadyLine spec.now line.now }
    requires state { IsState (length spec.now.variables) from.now }
    requires updated { AreUpdated line.now.updates from.now places.now }
    requires exact { LeadsThere line.now.updates from.now places.now }
    ensures all { IfOk result (λ ends. AreAllEnds sparing spec.now line.now from.now ends.items) }
    ensures reached { IfOk result (λ ends. EndsReached ends.items) }
{
    orderly_law();
    whole_law();
    let same = places.copy(alloc)?;
    let ends = line_ends(alloc, spec, line, from, sparing, ROOM, same)?;
    if ends.len() >= ROOM {
        return Err(AllocError);
    }
    Ok(ends)
}
