//! Equal terms of their own.
#![tactic(auto)]

mod build;
mod copy;
mod rows;

pub use copy::copy_term;
