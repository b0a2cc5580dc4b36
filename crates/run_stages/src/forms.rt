ghost use Rattle.std.specs.Prelude.{◌≡◌, IfOk, IfErr};
ghost use Rattle.actions_meanings.specs.declared.fault.FormFault.{FormFault};
ghost use Rattle.names_specification_laws.specs.IsSpec.{IsSpec};
ghost use Rattle.steps_forms.specs.Forms.{AreWhole, IsFirstFault};
ghost use Rattle.steps_ready_defs.specs.Ready.{IsReadySpec};
ghost use Rattle.run_texts.specs.Forms.{form_refusal};
ghost use Rattle.run_reading_defs.specs.Refusals.{all_files};
ghost use Rattle.run_stages.specs.Stops.{RefusedWith};

use crate::files::all_files;
use crate::stop::Stop;
use actions_meanings::FormFault;
use names_terms::Spec;
use reading_trees::{Config, Program};
use run_texts::form_refusal;
use std::alloc::Global;
use steps_ready_lines::ready_forms;

/// Tests the forms of Init, Next and the silent operator.
pub(crate) fn test_forms(
    alloc: Global,
    program: &Program,
    config: &Config,
    spec: &Spec,
) -> Result<(), Stop>
    requires { IsSpec spec.now }
    ensures accepted { IfOk result (λ u. AreWhole spec.now) }
    ensures ready { IfOk result (λ u. IsReadySpec spec.now) }
    ensures refused { IfErr result (RefusedWith (λ report. (fault : FormFault) × IsFirstFault spec.now fault
        × (report ≡ form_refusal (all_files program.now config.now) spec.now.variables fault))) }
{
    match ready_forms(alloc, spec) {
        Ok(()) => Ok(()),
        Err(FormFault::NoMemory) => Err(Stop::NoMemory),
        Err(fault) => {
            let files = all_files(alloc, program, config)?;
            Err(Stop::Refused(form_refusal(alloc, &files, &spec.variables, fault)?))
        }
    }
}
