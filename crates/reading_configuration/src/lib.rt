//! The configuration of a specification, in the form of TLC's configuration file.
#![tactic(auto)]

mod expects;
mod fault;
mod keyword;
mod laws;
mod mark;
mod reading;
mod sets;
mod step;
mod values;

pub use fault::{ConfigFault, ConfigKind};
pub use keyword::begins_statement;
pub use laws::{givens_are_within_limits, one_configuration};
pub use reading::{config, of_tokens};
