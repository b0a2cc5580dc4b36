//! Laws of evaluation: a term has one outcome, it keeps it where more values are known, and what it has is a value.
#![tactic(auto)]

mod laws;

pub use laws::{knowledge_laws, outcome_laws, value_law};
