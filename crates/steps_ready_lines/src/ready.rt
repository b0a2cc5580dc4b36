ghost use Rattle.std.specs.Prelude.{IfOk};
ghost use Rattle.names_specification_laws.specs.IsSpec.{IsSpec};
ghost use Rattle.steps_forms.specs.Forms.{FormsSay};
ghost use Rattle.steps_ready_defs.specs.Ready.{IsReadySpec};

use crate::readiness_laws::ready_laws;
use actions_meanings::FormFault;
use eval_known::knows_specification;
use names_terms::Spec;
use std::alloc::Global;
use steps_forms::whole_forms;

/// Whether a specification in order is ready for the search, or the first thing that is wrong with the forms of its actions: of Init, then of Next, then of the
/// operator of the steps that no line shows.
pub fn ready_forms(alloc: Global, spec: &Spec) -> Result<(), FormFault>
    requires { IsSpec spec.now }
    ensures forms { FormsSay spec.now result }
    ensures ready { IfOk result (λ done. IsReadySpec spec.now) }
{
    ready_laws();
    match knows_specification(alloc, spec) {
        Ok(()) => match whole_forms(alloc, spec) {
            Ok(()) => Ok(()),
            Err(fault) => Err(fault),
        },
        Err(_) => Err(FormFault::NoMemory),
    }
}
