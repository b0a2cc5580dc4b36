//! Of terms that differ by the numbers of definitions alone evaluation says the same, and so do actions.
#![tactic(auto)]

mod actions_laws;
mod outcomes_laws;

pub use actions_laws::alike_action_laws;
pub use outcomes_laws::alike_outcome_laws;
