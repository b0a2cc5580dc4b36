//! Expressions of TLA+: from laid tokens to syntax trees.
#![tactic(auto)]

mod fault;
mod reader;
mod refusing;

pub use fault::ParseFault;
pub use reader::{definition, expression};
pub use refusing::fault_at;
