//! How a variable of a partly filled next state is filled, where some of that state is seen already.
#![tactic(auto)]

mod choosing;
mod filling;

pub use choosing::chosen;
pub use filling::{assigned, one_place};
