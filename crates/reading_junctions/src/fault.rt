ghost use Rattle.std.specs.Prelude.{◌≡◌};
ghost use Rattle.reading_junctions.specs.declared.fault.LayFault.TheVariants.{NoMemory};

use base_core::Place;
use std::alloc::{AllocError, AllocFailed};
use thiserror::Error;

/// Why tokens have no junction lists marked.
#[derive(Debug, Drop, Error)]
pub enum LayFault {
    /// The token of this place stands at or left of the column of a list in which a bracket, IF, LET
    /// or binder is still open.
    #[error("left of an open list at {0}")]
    LeftOfList(Place),
    #[error("out of memory")]
    NoMemory,
}

impl From<AllocError> for LayFault {
    ghost from_gives = { λ _ e. e ≡ NoMemory };

    fn from(_e: AllocError) -> LayFault {
        LayFault::NoMemory
    }
}

impl<T: Drop> From<AllocFailed<T>> for LayFault {
    ghost from_gives = { λ _ e. e ≡ NoMemory };

    fn from(_e: AllocFailed<T>) -> LayFault {
        LayFault::NoMemory
    }
}
