//! Programs: a module and those that it extends, directly or through others, read from their files and put together.
#![tactic(auto)]

mod fault;
mod instances;
mod loading;
mod meeting;
mod names;
mod notes;
mod path;
mod reader;
mod reading;
mod so_far;
mod standard;
mod strict;
mod twice;

pub use fault::{LoadFault, LoadWhy, Stop};
pub use loading::{Loaded, load, load_by};
pub use notes::{Noted, Notes};
pub use path::parts_of;
pub use reader::{ModuleReader, SpelledModule, StrictReader};
pub use standard::is_standard;
pub use strict::spelled;
