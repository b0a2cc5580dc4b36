//! The module Ring and its log, of which the program's smoke test is made: a token that goes round five holders.
#![tactic(auto)]

mod files;
mod job;
mod log;

pub use files::ring_files;
pub use job::ring_job;
