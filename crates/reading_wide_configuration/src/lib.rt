//! Configurations as they are for TLC: what they say of a search alone is passed over, and told.
#![tactic(auto)]

mod bounds;
mod copies;
mod laws;
mod passing;
mod reading;

pub use laws::{givens_are_within_limits_by, laws_of_passing, one_configuration_by};
pub use reading::{config_by, config_wide};
