use base_core::Place;
use std::alloc::AllocError;
use thiserror::Error;
use values_core::EvalKind;

/// Why a term has no value: what went wrong and the place at which it did, or that memory is wanted.
#[derive(Clone, Copy, Debug, Drop, PartialEq, Eq, Error)]
pub enum EvalFault {
    #[error("{0} at {1}")]
    Refused(EvalKind, Place),
    #[error("out of memory")]
    NoMemory,
}

impl From<AllocError> for EvalFault {
    ghost use Rattle.std.specs.Prelude.{◌≡◌};
    ghost use Rattle.eval_meanings.specs.declared.fault.EvalFault.TheVariants.{NoMemory};

    ghost from_gives = { λ _ e. e ≡ NoMemory };

    fn from(_e: AllocError) -> EvalFault {
        EvalFault::NoMemory
    }
}
