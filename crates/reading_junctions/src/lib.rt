//! Junction lists: the marking of lists of `/\` and `\/` among the tokens of a module.
//!
//! The tokens of a list stand right of its bullets, so where a list begins and ends is told by columns
//! and by the brackets and words around it, before anything of the grammar is read.
#![tactic(auto)]

mod fault;
mod kinds;
mod marking;
mod stack;
mod summary;

pub use fault::LayFault;
pub use marking::lay;
