//! Laws of the forms of actions: an action keeps its form where more is fixed before, and what a specification in order says of what its actions leave fixed.
#![tactic(auto)]

mod growth_laws;
mod soundness_laws;

pub use growth_laws::{growth_law, speaking_laws, staying_laws, whole_law};
pub use soundness_laws::{operator_law, sound_law};
