//! The first states of a specification, the steps of a line and the steps that no line shows: each state once, every state, no other.
#![tactic(auto)]

mod first;
mod resting;
mod states;
mod steps;
mod walking;

pub use first::initial;
pub use states::states_of;
pub use steps::{silent_steps, successors};
