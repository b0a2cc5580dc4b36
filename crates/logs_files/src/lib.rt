//! The logs of a run: what all of them say together, as one log.
#![tactic(auto)]

mod files;
mod laws;
mod lined;
mod logs;
mod placing;
mod vectors;

pub use laws::logs_laws;
pub use lined::lined_of;
pub use logs::{LogRefusal, read_logs};
pub use placing::log_of;
