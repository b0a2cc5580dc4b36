//! Which definitions of a program are above level 0: the least levels that satisfy the table of levels, where definitions may use themselves.
#![tactic(auto)]

mod laws;
mod told;

pub use laws::levels_are_least;
pub use told::{NameLevel, Told};
