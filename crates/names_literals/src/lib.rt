//! The values that a configuration spells.
#![tactic(auto)]

mod laws;
mod literal;

pub use laws::literal_laws;
pub use literal::literal_value;
