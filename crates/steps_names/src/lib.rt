//! What a specification tells a reader of logs: its operators and variables by their names, and which operators have a form.
#![tactic(auto)]

mod forms;
mod laws;
mod names;
mod searching;

pub use laws::name_laws;
pub use names::LogNames;
