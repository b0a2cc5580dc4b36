//! The report of an answer, with the lines that tell why no step of a line goes on, and with its near lines.
#![tactic(auto)]

mod behind;
mod entries;
mod lines;
mod report;
mod within;

pub use report::{Wanted, whole_report};
