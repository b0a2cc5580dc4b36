//! Which variables an action leaves fixed, or the first thing that is wrong with its form.
#![tactic(auto)]

mod arms;
mod checks;
mod endings;
mod forks;
mod forms;
mod keeping;
mod kinds;
mod laws;
mod rows;

pub use forms::{fixed, fixed_within, whole};
pub use laws::form_laws;
