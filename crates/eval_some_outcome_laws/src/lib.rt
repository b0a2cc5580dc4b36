//! Laws of evaluation and of described sets: there is an outcome, so that no row of their definitions is empty.
#![tactic(auto)]

mod laws;

pub use laws::{listing_law, some_laws};
