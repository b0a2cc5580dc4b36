//! The pieces of a module: where its heading ends and where each of its units begins, told by few tokens, whatever stands between them.
//!
//! A piece is a unit with all behind it up to the next: a definition, a declaration, an assumption, a theorem with its proof. So a unit that
//! can not be read is told from its neighbours.
#![tactic(auto)]

mod copies;
mod head;
mod laws;
mod mark;
mod names;
mod split;
mod within;

pub use copies::append_tokens;
pub use laws::one_parting;
pub use mark::{Mark, is_nested, mark_of};
pub use names::names_of;
pub use split::{heading_length, piece_length};
pub use within::{Proof, Within};
