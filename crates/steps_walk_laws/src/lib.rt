//! Laws of actions: what a specification says can be evaluated, and its actions can be walked; and what the walk of an action in order rests on.
#![tactic(auto)]

mod grounds_laws;
mod stable_laws;

pub use grounds_laws::orderly_law;
pub use stable_laws::{early_law, evaluation_law, walking_law};
