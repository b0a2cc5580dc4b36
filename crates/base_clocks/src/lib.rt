//! Clocks of several nodes, and when one is above another.
#![tactic(auto)]

mod falls;
mod stamp;
mod stamps;

pub use stamp::Stamp;
pub use stamps::Stamps;
