//! The top call: from words and files to a report and a status.
#![tactic(auto)]

mod call;
mod given;
mod judge;
mod searching;
mod smoke;
mod whole;

pub use call::{Status, run};
