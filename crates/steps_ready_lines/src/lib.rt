//! What is so of each line of a log that was read under the names of a specification: its step can be taken, since what resolving gives is ready for the search.
#![tactic(auto)]

mod lines_laws;
mod readiness_laws;
mod ready;
mod values;

pub use lines_laws::logs_are_ready;
pub use readiness_laws::ready_laws;
pub use ready::ready_forms;
pub use values::{known_values, known_values_over};
