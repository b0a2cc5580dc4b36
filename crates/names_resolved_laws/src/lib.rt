//! What comes of a program whose names and levels are fine is a specification in order; and what is left of a program, or spelled out in it, is as this asks for.
#![tactic(auto)]

mod pruning_laws;
mod resolving_laws;

pub use pruning_laws::{left_is_well_formed, spelled_is_well_formed};
pub use resolving_laws::resolved_laws;
