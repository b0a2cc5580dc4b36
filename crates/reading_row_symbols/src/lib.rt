//! Tokens that begin rows of an expression, and symbols that end them.
#![tactic(auto)]

mod binders;
mod brackets;
mod closers;
mod openers;

pub use brackets::{Member, join_member};
pub use closers::{symbol_closes, with_step};
pub use openers::{begin_binding, begins};
