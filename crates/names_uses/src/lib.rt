//! Which definitions of a program use which, and which are above level 0.
#![tactic(auto)]

mod levels;
mod strict;
mod used;

pub use levels::definition_levels;
pub use strict::strict_uses;
pub use used::{definition_of, uses};
