//! From a program and its configuration to a specification, where the operator behind SPECIFICATION may be fairness and the name of another.
#![tactic(auto)]

mod behind;
mod conjuncts;
mod copies;
mod fair;
mod laws;
mod named;
mod resolving;

pub use laws::resolving_laws;
pub use resolving::resolve_by;
