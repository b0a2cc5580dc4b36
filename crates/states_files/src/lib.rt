//! The file of printed states: what each of its lines says, and why it is refused.
#![tactic(auto)]

mod fields;
mod file;
mod kind;
mod known;
mod laws;
mod line;
mod members;
mod refusal;
mod step;
mod values;

pub use file::read_states;
pub use kind::StateKind;
pub use laws::state_laws;
pub use refusal::StateRefusal;
