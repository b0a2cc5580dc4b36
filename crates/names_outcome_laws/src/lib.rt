//! Laws of resolving: what is wrong with levels is decided, some term is meant where nothing is wrong with names, and something comes of each program with its
//! configuration, so that no row of these definitions is empty. And it can be one whose table has no definitions without a name but those of LETs.
#![tactic(auto)]

mod levels_laws;
mod programs_laws;
mod some_terms_laws;

pub use levels_laws::level_laws;
pub use programs_laws::{lets_law, program_laws};
pub use some_terms_laws::tree_law;
