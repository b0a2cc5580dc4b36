//! Over two specifications that differ by the numbers of definitions alone texts say logs that differ by those numbers alone, and beside these the same
//! answers and verdicts are true: beside one log, beside several, and beside the lines of all logs in one order or in each that is allowed.
#![tactic(auto)]

mod lined;
mod logs;
mod steps;
mod ties;

pub use lined::alike_lined_laws;
pub use logs::alike_logs_laws;
pub use steps::alike_steps_laws;
pub use ties::alike_tied_laws;
