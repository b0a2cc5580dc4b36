//! The modules that a specification may extend beside the standard ones, as texts inside the program: TLA+ in our own words, which says what the published modules say,
//! where that needs no operator as an argument.
#![tactic(auto)]

mod library;
mod texts;

pub use library::{is_library, text_of};
