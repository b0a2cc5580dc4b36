use base_core::Place;
use thiserror::Error;
use values_core::EvalKind;

/// An evaluation that has no value: what went wrong, and the place of the term at which it did.
#[derive(Clone, Copy, Debug, Drop, PartialEq, Eq, Error)]
#[error("{kind} at {at}")]
pub struct Fault {
    pub kind: EvalKind,
    pub at: Place,
}
