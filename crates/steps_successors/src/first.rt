ghost use Rattle.std.specs.Prelude.{◌≡◌, IfOk, None, length, replicate};
ghost use Rattle.actions_meanings.specs.Reads.{in_none};
ghost use Rattle.actions_meanings.specs.declared.which.Which.TheVariants.{Init};
ghost use Rattle.actions_rows.specs.Rows.{setting as stage_setting};
ghost use Rattle.steps_lines_defs.specs.Asks.{AreSeen};
ghost use Rattle.steps_lines_defs.specs.Says.{setting};
ghost use Rattle.steps_lines_defs.specs.Steps.{FaultFirst, IsFirst};
ghost use Rattle.states_layers.specs.Gives.{Gives};
ghost use Rattle.steps_ready_defs.specs.Ready.{AreOfVariables, IsReadySpec};

use crate::states::states_of;
use crate::steps::refused;
use actions_form_laws::whole_law;
use actions_meanings::Which;
use actions_rows::Stage;
use base_core::NoMemory;
use base_core::limits::MAX_EVALUATIONS;
use logs_updates::{See, Sees};
use names_terms::Spec;
use states_core::{Partial, State};
use states_layers::StepFault;
use std::alloc::Global;
use steps_found_states::ground_law;
use steps_moves::seen_laws;
use steps_walk::walk;
use steps_walk_laws::orderly_law;

/// The first states of the specification in which what is seen at first holds, each once; or a fault that Init has at some state; or that there are
/// more than `bound`.
pub fn initial(alloc: Global, spec: &Spec, sees: &Sees, bound: u32) -> Result<Vec<State>, StepFault>
    requires ready { IsReadySpec spec.now }
    requires sees { AreOfVariables spec.now sees.now }
    ensures { Gives (IsFirst spec.now sees.now) (FaultFirst spec.now in_none) (AreSeen sees.now) bound result }
{
    orderly_law();
    whole_law();
    seen_laws();
    ground_law();
    let before = no_values(alloc, spec)?;
    let stage = stage_of_init(spec, &before, sees.items());
    let places = no_values(alloc, spec)?;
    match walk(alloc, stage, &[], MAX_EVALUATIONS, places, &spec.init) {
        Ok(found) => states_of(alloc, &found, bound),
        Err(fault) => Err(refused(fault)),
    }
}

/// The places of the specification's variables, none with a value.
pub fn no_values(alloc: Global, spec: &Spec) -> Result<Partial, NoMemory>
    requires { IsReadySpec spec.now }
    ensures { IfOk result (λ p. p ≡ replicate (length spec.now.variables) None) }
{
    Partial::empty(alloc, spec.variables.len() as u16)
}

/// What the walk of Init is made over, which looks at no state before.
fn stage_of_init<'a>(spec: &'a Spec, places: &'a Partial, sees: &'a [See]) -> Stage<'a>
    ensures setting { stage_setting result ≡ setting Init spec.now }
    ensures state { result.state.now ≡ places.now }
    ensures sees { result.sees.now ≡ sees.now }
{
    Stage {
        which: Which::Init,
        variables: spec.variables.len(),
        operators: &spec.operators,
        state: places,
        sees,
    }
}
