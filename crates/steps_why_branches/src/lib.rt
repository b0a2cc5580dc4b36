//! The branches of an action from a next state that is partly filled, and why each ends.
#![tactic(auto)]

mod listing;
mod reasons;
mod sparing;
mod why;

pub use listing::{cut_law, leaf_lists, opening_lists, part_lists};
pub use reasons::{near_law, reason_law};
pub use sparing::{Passing, Slots, Spared, Sparing};
pub use why::{Ended, Why, WhyKind};
