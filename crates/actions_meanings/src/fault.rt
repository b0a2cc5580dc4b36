ghost use Rattle.std.specs.Prelude.{◌≡◌};
ghost use Rattle.actions_meanings.specs.FaultCodes.{form_code};

use base_core::Place;
use states_core::VarId;
use thiserror::Error;

/// Why a term has no form as an action, with the variable and the place.
#[derive(Clone, Copy, Debug, Drop, PartialEq, Eq, Error)]
pub enum FormFault {
    /// The next value of the variable is read before anything has fixed it.
    #[error("{} at {}", self.code(), .1)]
    PrimeTooEarly(VarId, Place),
    /// The variable is fixed by another arm, or must be fixed at the end, and this term does not fix it.
    #[error("{} at {}", self.code(), .1)]
    NotFixed(VarId, Place),
    #[error("out of memory")]
    NoMemory,
}

impl FormFault {
    /// The code and the name of the refusal.
    pub fn code(&self) -> &'static str
        ensures { result.now ≡ form_code self.now }
    {
        match self {
            FormFault::PrimeTooEarly(_, _) => "A1 PrimeTooEarly",
            FormFault::NotFixed(_, _) => "A2 NotFixed",
            FormFault::NoMemory => "",
        }
    }
}
