//! The tokens of a TLA+ text.
#![tactic(auto)]

mod bytes;
mod comments;
mod fault;
mod lexer;
mod piece;
mod places;
mod start;
mod strings;

pub use fault::LexFault;
pub use lexer::{lex, lex_plain};
pub use reading_tokens::LexKind;
