//! Levels of texts: the first fault, arguments of parameters that stand under a prime, and the shape of a specification.
#![tactic(auto)]

mod fairness;
mod gathering;
mod note;
mod noting;
mod reading;
mod shape;
mod telling;

pub use note::Note;
pub use noting::{assumption_fault, note_of, notes};
pub use shape::{Shape, specification};
