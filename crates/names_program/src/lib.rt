//! The names of a program with its configuration: what each means.
#![tactic(auto)]

mod declared;
mod names;
mod numbered;
mod replacing;
mod standard;

pub use declared::{assumptions, constants, definitions, variables};
pub use names::program_names;
pub use numbered::{add_numbered, names_by_definition, numbered_names};
pub use replacing::definition_index;
pub use standard::brought;
