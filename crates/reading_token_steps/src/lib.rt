//! What one laid token does to the rows that are open.
#![tactic(auto)]

mod behind;
mod named;
mod starts;
mod steps;

pub use steps::step;
