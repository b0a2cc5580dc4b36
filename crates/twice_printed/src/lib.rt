//! That printed states are read again as the same states: those of a report that explains, and those of one that tells why a log is not explained.
#![tactic(auto)]

mod printed_states_laws;
mod state_files_laws;
mod why_lines_laws;

pub use printed_states_laws::printed_valid_law;
pub use state_files_laws::printed_law;
pub use why_lines_laws::why_law;
