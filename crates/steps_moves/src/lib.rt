//! What a line's updates make of a state, and whether what it sees agrees with places.
#![tactic(auto)]

mod agreeing;
mod moving;

pub use agreeing::{agrees, seen_laws};
pub use moving::moved;
