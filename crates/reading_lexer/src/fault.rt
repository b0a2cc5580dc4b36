//! Why a text has no tokens.

ghost use Rattle.std.specs.Prelude.{◌≡◌};
ghost use Rattle.reading_lexer.specs.declared.fault.LexFault.TheVariants.{NoMemory};

use base_core::Place;
use reading_tokens::LexKind;
use std::alloc::{AllocError, AllocFailed};
use thiserror::Error;

/// Why a text has no tokens, and where; or memory was wanting.
#[derive(Clone, Copy, Debug, Drop, PartialEq, Eq, Error)]
pub enum LexFault {
    #[error("{0} at {1}")]
    Refused(LexKind, Place),
    #[error("out of memory")]
    NoMemory,
}

impl From<AllocError> for LexFault {
    ghost from_gives = { λ _ e. e ≡ NoMemory };

    fn from(_e: AllocError) -> LexFault {
        LexFault::NoMemory
    }
}

impl<T: Drop> From<AllocFailed<T>> for LexFault {
    ghost from_gives = { λ _ e. e ≡ NoMemory };

    fn from(_e: AllocFailed<T>) -> LexFault {
        LexFault::NoMemory
    }
}
