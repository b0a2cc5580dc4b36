//! All names that are free in a tree, in one walk.
#![tactic(auto)]

mod hidden;
mod walk;

pub use walk::free_names;
