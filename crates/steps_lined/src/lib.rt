//! What is so of a specification beside the lines of all logs, whether these stand in one order or in each that is allowed, and of these whatever texts they
//! were read from.
#![tactic(auto)]

mod held;
mod known;

pub use held::held_so;
