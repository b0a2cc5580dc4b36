//! A specification beside a log, as what given states are judged against.
#![tactic(auto)]

mod line;
mod moving;
mod pairs;
mod showing;
mod telling;

pub use pairs::{SpecPairs, monotone_law, small_law};
