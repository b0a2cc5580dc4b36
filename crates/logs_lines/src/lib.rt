//! The lines of a log: what each says, and why it is refused.
#![tactic(auto)]

mod clocks;
mod event;
mod fields;
mod file;
mod kind;
mod laws;
mod names;
mod parts;
mod position;
mod reading;
mod step;
mod values;

pub use clocks::ClockForm;
pub use file::{FileLines, Refusal, read_log};
pub use kind::{LogKind, Outcome};
pub use laws::line_laws;
pub use names::SpecNames;
pub use position::Position;
pub use reading::read_line;
