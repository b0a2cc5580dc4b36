ghost use Rattle.std.specs.Prelude.{◌≡◌, ◌<◌, length};
ghost use Rattle.names_terms.specs.Lists.{terms_list};
ghost use Rattle.states_layers.specs.Gives.{Tells};
ghost use Rattle.steps_ready_defs.specs.Ready.{IsReadySpec};
ghost use Rattle.steps_cut_source.specs.Assumed.{no_lines, system_alone};

use base_core::Place;
use logs_updates::{LineList, Log, Sees};
use names_terms::Spec;
use states_layers::{StepFault, Steps};
use std::alloc::Global;
use steps_source::SpecSteps;

/// What is told of an assumption. It reads no line, so it is that of the specification beside a log without lines.
pub(crate) fn assumed(alloc: Global, spec: &Spec, index: usize) -> Result<Option<Place>, StepFault>
    requires { IsReadySpec spec.now }
    ensures { index < length (terms_list spec.now.assumes) → Tells (system_alone spec.now) index result }
{
    let nothing = Log {
        init: Sees::new(alloc),
        lines: LineList::new(alloc),
    };
    assumed_beside(alloc, spec, &nothing, index)
}

/// What is told of an assumption beside a log.
fn assumed_beside(
    alloc: Global,
    spec: &Spec,
    log: &Log,
    index: usize,
) -> Result<Option<Place>, StepFault>
    requires ready { IsReadySpec spec.now }
    requires nothing { log.now ≡ no_lines }
    ensures { index < length (terms_list spec.now.assumes) → Tells (system_alone spec.now) index result }
{
    let steps = SpecSteps {
        spec,
        log,
        stutter: false,
        within: 1,
        limit: 0,
    };
    steps.assumed(alloc, index)
}
