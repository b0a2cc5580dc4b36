ghost use Rattle.std.specs.Prelude.{◌≡◌, ◌≤◌, ◌<◌, ◌↔◌, IfOk, IsTrue, false, length, take};
ghost use Rattle.states_core.specs.States.{Values};
ghost use Rattle.steps_lines_defs.specs.Asks.{asks};
ghost use Rattle.steps_lines_defs.specs.Says.{IsState};
ghost use Rattle.steps_lines_defs.specs.Steps.{Step};
ghost use Rattle.steps_ready_defs.specs.Ready.{IsReadyLine, IsReadySpec};
ghost use Rattle.steps_why_not.specs.Results.{AreUpdated};
ghost use Rattle.steps_why_not.specs.Taken.{LeadsThere};
ghost use Rattle.steps_why_not.specs.Whys.{AreTold, AreWhys, Shows};

use crate::answer::Whys;
use crate::reasons::reasons;
use crate::stuck::no_result;
use crate::through::line_ends;
use actions_form_laws::whole_law;
use base_core::NoMemory;
use logs_updates::Line;
use names_terms::Spec;
use states_core::{Partial, State};
use std::alloc::Global;
use steps_moves::moved;
use steps_walk_laws::orderly_law;
use steps_why_branches::{Ended, Passing, Sparing};

/// Why the branches of the line from the state end, in their order and at most `most` of them, and whether there are more. No step of the line goes
/// from the state.
pub fn why(
    alloc: Global,
    spec: &Spec,
    line: &Line,
    state: &State,
    most: u32,
) -> Result<Whys, NoMemory>
    requires ready { IsReadySpec spec.now }
    requires fits { IsReadyLine spec.now line.now }
    requires state { IsState (length spec.now.variables) state.now }
    requires most { 1 ≤ most }
    requires none { (t : Values) → ¬ Step (asks spec.now false line.now) state.now t }
    ensures list { IfOk result (λ whys. AreWhys spec.now line.now state.now most whys.list.items whys.more) }
    ensures some { IfOk result (λ whys. 1 ≤ length whys.list.items) }
    ensures shows { IfOk result (λ whys. Shows spec.now line.now state.now whys.list.items whys.more) }
    ensures told { AreTold spec.now line.now state.now }
{
    told_law(spec, line, state);
    let next = moved(alloc, &line.updates, state)?;
    match next {
        None => no_result(alloc, &line.updates, state),
        Some(places) => first_whys(alloc, spec, line, state, most, places),
    }
}

/// The same, from the places that the line's updates fill.
fn first_whys(
    alloc: Global,
    spec: &Spec,
    line: &Line,
    state: &State,
    most: u32,
    places: Partial,
) -> Result<Whys, NoMemory>
    requires ready { IsReadySpec spec.now }
    requires fits { IsReadyLine spec.now line.now }
    requires state { IsState (length spec.now.variables) state.now }
    requires most { 1 ≤ most }
    requires none { (t : Values) → ¬ Step (asks spec.now false line.now) state.now t }
    requires updated { AreUpdated line.now.updates state.now places }
    requires exact { LeadsThere line.now.updates state.now places }
    ensures list { IfOk result (λ whys. AreWhys spec.now line.now state.now most whys.list.items whys.more) }
    ensures some { IfOk result (λ whys. 1 ≤ length whys.list.items) }
    ensures shows { IfOk result (λ whys. Shows spec.now line.now state.now whys.list.items whys.more) }
{
    orderly_law();
    whole_law();
    let nothing = Sparing {
        at: Passing::Nothing,
        call: None,
    };
    let room = most as usize + 1;
    let mut ends = line_ends(alloc, spec, line, state, nothing, room, places)?;
    let more = cut(&mut ends, most as usize);
    let list = reasons(alloc, line.sees.items(), &ends)?;
    Ok(Whys { list, more })
}

/// Keeps the first `most` of the ends, and tells whether there were more.
fn cut(ends: &mut Vec<Ended>, most: usize) -> bool
    ensures kept { ends.new.items ≡ take most ends.old.items }
    ensures more { IsTrue result ↔ (most < length ends.old.items) }
{
    let more = ends.len() > most;
    ends.truncate(most);
    more
}

/// What is told of each branch of the line.
fn told_law(spec: &Spec, line: &Line, state: &State)
    requires ready { IsReadySpec spec.now }
    requires fits { IsReadyLine spec.now line.now }
    requires state { IsState (length spec.now.variables) state.now }
    ensures { AreTold spec.now line.now state.now }
{
    orderly_law();
    whole_law();
}
