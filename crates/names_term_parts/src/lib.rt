//! Parts of terms: which of them stand under a prime, which are too high, and which definitions and slots a text uses.
#![tactic(auto)]

mod fault;
mod levels;
mod limits;
mod ordered;
mod pending;
mod slots;
mod special;

pub use fault::{LevelFault, earlier, held, is_above, is_before};
pub use limits::check_limits;
pub use ordered::{mentions_below, uses_smaller};
pub use pending::{Pending, push, push_parts, push_terms};
pub use slots::Slots;
pub use special::{Special, special_of};
