//! The verdict on given states of a specification beside one log, beside several, and beside the lines of all logs, in one order or in each that is allowed. What a
//! search explains is valid, state by state.
#![tactic(auto)]

mod explained;
mod lined;
mod lined_valid;
mod tied;
mod tied_valid;
mod verdict;

pub use explained::explained_law;
pub use lined::{LinedPairs, verdict_over};
pub use lined_valid::lined_laws;
pub use tied::{TiedPairs, tied_verdict};
pub use tied_valid::tied_verdict_laws;
pub use verdict::verdict_on;
