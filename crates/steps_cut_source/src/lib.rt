//! A specification beside several logs, as what gives the steps of a search over cuts of the logs.
#![tactic(auto)]

mod assuming;
mod entry;
mod lines;
mod listing;
mod placing;
mod steps;

pub use entry::Entry;
pub use steps::{CutSteps, small_law};
