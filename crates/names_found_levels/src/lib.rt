//! The least levels of a program's definitions, found from no mark on.
#![tactic(auto)]

mod around;
mod known;
mod levels;
mod walk;

pub use levels::{levels_of, local_rises};
