//! From a program and its configuration to a specification in which every name is resolved, or the first thing that is wrong.
#![tactic(auto)]

mod configured;
mod fault;
mod finding;
mod givens;
mod named;
mod resolving;
mod steps;
mod unit_levels;

pub use fault::ResolveFault;
pub use resolving::resolve;
