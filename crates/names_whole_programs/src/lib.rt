//! Whole programs: what is wrong with the instances of a program, and what they make.
#![tactic(auto)]

mod checking;
mod copying;
mod expanding;
mod faults;
mod given;
mod laws;

pub use checking::check_instances;
pub use expanding::expand;
pub use faults::first_instance_fault;
pub use laws::expansion_laws;
