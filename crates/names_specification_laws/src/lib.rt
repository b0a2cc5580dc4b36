//! What a specification in order is, and that what trees mean is in order.
#![tactic(auto)]

mod laws;

pub use laws::{fault_laws, form_laws, shape_laws, spec_laws};
