//! The specification of a program with its configuration, where what no step needs may be passed over: with the word `--wide`, and without it.
#![tactic(auto)]

mod laws;
mod leaving;
mod lines;
mod names;
mod needing;
mod passing;
mod resolution;
mod unchecked;

pub use laws::passing_laws;
pub use passing::resolve_read;
pub use resolution::{Resolution, ResolutionFault};
