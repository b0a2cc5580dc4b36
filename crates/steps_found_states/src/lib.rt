//! What walking an action finds: further filled next states, which hold just the states that the action allows.
#![tactic(auto)]

mod laws;

pub use laws::{ground_law, joining_laws, part_laws, simple_laws, value_laws};
