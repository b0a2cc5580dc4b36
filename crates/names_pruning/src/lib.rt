//! What of a program is passed over because no step needs it: definitions and assumptions that use what means nothing or was not read.
#![tactic(auto)]

mod asked;
mod laws;
mod lost;
mod over;
mod parting;
mod program;
mod reach;
mod roots;
mod telling;

pub use asked::first_asked;
pub use laws::{needed_laws, pruning_laws};
pub use program::{PrunedProgram, Pruning, needed_alone, pruned};
pub use reach::{bad_definitions, needed_definitions};
pub use roots::needed_names;
pub use telling::{PassedOver, told};
