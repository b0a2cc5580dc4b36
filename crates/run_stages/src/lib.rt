//! All texts of a job, read in their order up to the first refusal.
#![tactic(auto)]

mod configs;
mod expanding;
mod files;
mod forms;
mod given;
mod logs;
mod modules;
mod reading;
mod resolving;
mod stop;
mod wanted;

pub use files::all_files;
pub use given::{Given, read_given};
pub use reading::{Accepted, read_all};
pub use stop::Stop;
