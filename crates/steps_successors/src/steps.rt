ghost use Rattle.std.specs.Prelude.{◌≡◌, length};
ghost use Rattle.actions_meanings.specs.Reads.{in_none};
ghost use Rattle.steps_lines_defs.specs.Says.{IsState};
ghost use Rattle.steps_lines_defs.specs.Asks.{AreSeen, asks, updated};
ghost use Rattle.steps_lines_defs.specs.Steps.{FaultSilent, FaultStep, Silent, Step};
ghost use Rattle.states_layers.specs.Gives.{Gives};
ghost use Rattle.steps_ready_defs.specs.Ready.{IsReadyLine, IsReadySpec};
ghost use Rattle.steps_successors.specs.Taken.{step_fault};

use crate::first::no_values;
use crate::resting::{add_rest, rests};
use crate::states::states_of;
use crate::walking::{Course, event_found, silent_found};
use actions_form_laws::whole_law;
use eval_meanings::EvalFault;
use logs_updates::Line;
use names_terms::Spec;
use states_core::{Fault, Partial, State};
use states_layers::StepFault;
use std::alloc::Global;
use steps_found_states::ground_law;
use steps_moves::{agrees, moved, seen_laws};
use steps_walk_laws::orderly_law;

/// The states to which the line leads from the state, each once; or a fault that its event or Next has at some state that its updates make; or that
/// there are more than `bound`. Where it has no event and may stutter, the state itself is one, if its updates leave it as it is.
pub fn successors(
    alloc: Global,
    spec: &Spec,
    stutter: bool,
    line: &Line,
    from: &State,
    bound: u32,
) -> Result<Vec<State>, StepFault>
    requires ready { IsReadySpec spec.now }
    requires fits { IsReadyLine spec.now line.now }
    requires state { IsState (length spec.now.variables) from.now }
    ensures { Gives (Step (asks spec.now stutter line.now) from.now) (FaultStep (asks spec.now stutter line.now) (updated line.now.updates) from.now) (AreSeen line.now.sees) bound result }
{
    orderly_law();
    whole_law();
    seen_laws();
    let Some(places) = moved(alloc, &line.updates, from)? else {
        return Ok(Vec::new(alloc));
    };
    let sees = line.sees.items();
    if !agrees(sees, &places) {
        return Ok(Vec::new(alloc));
    }
    let whole = Partial::of(alloc, from)?;
    let course = Course {
        spec,
        from,
        whole: &whole,
        sees,
    };
    let count = spec.variables.len() as u16;
    let stays = rests(stutter, line, &places, &whole, count);
    match event_found(alloc, course, &line.event, places) {
        Ok(found) => {
            let mut found = found;
            add_rest(alloc, &mut found, stays, &whole)?;
            states_of(alloc, &found, bound)
        }
        Err(fault) => Err(refused(fault)),
    }
}

/// The states to which a step that no line shows leads from the state, each once; or a fault that its operator or Next has at some state; or that there
/// are more than `bound`.
pub fn silent_steps(
    alloc: Global,
    spec: &Spec,
    from: &State,
    bound: u32,
) -> Result<Vec<State>, StepFault>
    requires ready { IsReadySpec spec.now }
    requires state { IsState (length spec.now.variables) from.now }
    ensures { Gives (Silent spec.now from.now) (FaultSilent spec.now in_none from.now) (λ t. Unit {0}) bound result }
{
    orderly_law();
    whole_law();
    seen_laws();
    ground_law();
    let places = no_values(alloc, spec)?;
    let whole = Partial::of(alloc, from)?;
    let course = Course {
        spec,
        from,
        whole: &whole,
        sees: &[],
    };
    match silent_found(alloc, course, spec.silent, places) {
        Ok(found) => states_of(alloc, &found, bound),
        Err(fault) => Err(refused(fault)),
    }
}

/// The fault as one of a step.
pub fn refused(fault: EvalFault) -> StepFault
    ensures { result ≡ step_fault fault }
{
    match fault {
        EvalFault::Refused(kind, at) => StepFault::Eval(Fault { kind, at }),
        EvalFault::NoMemory => StepFault::NoMemory,
    }
}
