//! Variables, states, environments and behaviours of a log, and the faults of evaluations.
#![tactic(auto)]

mod env;
mod fault;
mod partial;
mod state;
mod var_id;
mod var_set;

pub use env::Env;
pub use fault::Fault;
pub use partial::Partial;
pub use state::{Behaviour, Mark, Shown, State};
pub use values_core::EvalKind;
pub use var_id::VarId;
pub use var_set::VarSet;
