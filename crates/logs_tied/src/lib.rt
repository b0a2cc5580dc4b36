//! Several logs whose lines may stand in several orders, and the one order that the marks of given states name.
#![tactic(auto)]

mod laws;
mod logs;
mod named;

pub use laws::{mark_laws, naming_laws};
pub use logs::{Lined, Logs};
pub use named::named_log;
