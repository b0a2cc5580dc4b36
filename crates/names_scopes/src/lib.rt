//! Names and their scopes: what a name means at a place, which names are free in a tree, and the level of a term.
#![tactic(auto)]

mod applied;
mod free_names;
mod levels;
mod lookup;
mod meant;
mod operands;
mod program_names;
mod reach;
mod scope;

pub use applied::applies;
pub use free_names::{is_one_of, mentions};
pub use levels::level_for;
pub use lookup::{meaning, used};
pub use meant::{Entry, Meant, Named};
pub use operands::others_of;
pub use program_names::ProgramNames;
pub use scope::{Local, Scope};
