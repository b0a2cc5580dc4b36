//! That the values which stand in terms are values: no call above has to ask for it.
#![tactic(auto)]

mod spec;
mod walk;

pub use spec::knows_specification;
pub use walk::knows_values;
