//! The near lines of a line that leads on from nothing: which parts of its event and of Next, or which things that are seen, would make it a step if they
//! alone held.
#![tactic(auto)]

mod asking;
mod calls;
mod ends;
mod failing;
mod firsts;
mod keeping;
mod kinds;
mod lacking;
mod seeing;
mod subject;
mod words;

pub use asking::near_lines;
pub use words::{push_place, variable_name};
