//! A specification beside several logs whose lines may stand in several orders, as what a search over cuts is about.
#![tactic(auto)]

mod laws;

pub use laws::tied_laws;
