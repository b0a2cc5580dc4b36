//! Faults of forms.

ghost use Rattle.std.specs.Prelude.{◌≡◌};
ghost use Rattle.actions_meanings.specs.Outcomes.{not_fixed, too_early};

use actions_meanings::FormFault;
use base_core::Place;
use states_core::VarId;

/// That a variable, if there is one, is read too early.
pub fn too_early(at: Place, variable: Option<u16>) -> Option<FormFault>
    ensures { result ≡ too_early at variable }
{
    match variable {
        None => None,
        Some(number) => Some(FormFault::PrimeTooEarly(VarId(number), at)),
    }
}

/// That a variable, if there is one, is not fixed.
pub fn not_fixed(at: Place, variable: Option<u16>) -> Option<FormFault>
    ensures { result ≡ not_fixed at variable }
{
    match variable {
        None => None,
        Some(number) => Some(FormFault::NotFixed(VarId(number), at)),
    }
}
