//! From syntax trees to terms: what a tree means, or the first of its names that means nothing.
#![tactic(auto)]

mod build;
mod fault;
mod lookup;
mod own;
mod pending;
mod resolve;
mod tree;
mod walk;

pub use fault::NameFault;
pub use tree::resolve_tree;
