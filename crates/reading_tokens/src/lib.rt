//! The tokens of TLA+ in this project's profile: how each is spelled, and what it means that a text has them.
#![tactic(auto)]

mod bytes;
mod name;
mod piece;
mod spellings;
mod token;

pub use bytes::{begins_fair, has_letter, is_digit, is_letter, is_word, is_word_start};
pub use name::is_name;
pub use piece::{LexKind, Shape, one_outcome};
pub use spellings::{Table, kind_of};
pub use token::{Foreign, Kind, Symbol, Token, Word};
