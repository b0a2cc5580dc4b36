//! Which variables terms read of the state that is made, and the first read that comes too early.
#![tactic(auto)]

mod bodies;
mod faults;
mod kinds;
mod reading;
mod sets;
mod timely;
mod unchanged;
mod walking;

pub use faults::{not_fixed, too_early};
pub use kinds::{Shape, shape_of};
pub use reading::{Reads, all_reads};
pub use sets::{least_missing, least_outside, none, united, with_any};
pub use timely::early_variable;
pub use walking::{Walk, is_taken};
