//! What an action is: how a term is taken apart as one, when it holds of two states, which variables it leaves fixed, and its faults.
#![tactic(auto)]

mod fault;
mod which;

pub use fault::FormFault;
pub use which::Which;
