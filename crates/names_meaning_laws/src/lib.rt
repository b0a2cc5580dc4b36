//! Laws of names: what they mean, and which is the first that means nothing.
#![tactic(auto)]

mod laws;

pub use laws::name_laws;
