//! The words of the command line.
#![tactic(auto)]

mod command;
mod job;
mod laws;
mod line;
mod name;
mod number;
mod options;
mod read;

pub use command::{Command, Flag, Setting};
pub use job::{Job, Options, Words};
pub use laws::one_command;
pub use read::read_words;
