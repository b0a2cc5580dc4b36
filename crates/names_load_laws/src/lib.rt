//! That what `load` and `config` accept is what `resolve` and its laws ask for.
#![tactic(auto)]

mod laws;

pub use laws::{configuration_laws, load_by_laws, load_laws};
