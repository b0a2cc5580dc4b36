//! Instances of modules: the units that `I == INSTANCE M WITH ..` stands for.
#![tactic(auto)]

mod bound_names;
mod copies;
mod instance;
mod making;
mod renaming;
mod rows;
mod substitutes;

pub use copies::copy_tree;
pub use instance::instantiate;
pub use substitutes::{Substitute, Substitutes};
