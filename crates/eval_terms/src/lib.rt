//! The evaluator: the value of a term in a state and a next state, or its fault with the place.
#![tactic(auto)]

mod binding;
mod describing;
mod evaluate;
mod operations;
mod recursion;
mod stepping;

pub use binding::eval_bounds;
pub use evaluate::{describe, describe_set, eval, eval_each, eval_truth};
pub use stepping::{eval_changed, stays_same};
