//! Described sets: sets of TLA+ that are tested for membership without being listed, and listed only where they have an end.
#![tactic(auto)]

mod described;
mod laws;
mod lists;
mod members;

pub use described::{Described, DescribedNode, Field, Fields, Parts};
pub use laws::outcome_law;
pub use lists::{list, list_laws, listed};
pub use members::member;
