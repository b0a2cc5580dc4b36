use crate::kind::StateKind;
use thiserror::Error;

/// Why a file of states is refused, and at which line of it, from 1.
#[derive(Debug, Drop, Error)]
#[error("{kind} at line {line}")]
pub struct StateRefusal {
    pub kind: StateKind,
    pub line: u32,
}
