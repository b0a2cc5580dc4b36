//! Described sets of which it is sure, without listing them, that they can be listed.
#![tactic(auto)]

mod bounding;
mod laws;
mod sizes;

pub use bounding::bounds_of;
pub use laws::sure_law;
pub use sizes::Bounds;
