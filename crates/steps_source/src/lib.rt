//! A specification beside a log, as what gives the steps of a search over layers.
#![tactic(auto)]

mod assumption;
mod line;
mod steps;

pub use steps::{SpecSteps, small_law};
