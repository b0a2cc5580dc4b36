//! Whether an action holds of two whole states, and whether it has a fault there.
#![tactic(auto)]

mod deciding;
mod faults_laws;
mod pair;
mod told;
mod values;

pub use deciding::decide;
pub use faults_laws::fault_law;
pub use pair::Pair;
pub use told::Told;
