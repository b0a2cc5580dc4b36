//! The reader of expressions as a step on open rows, and its laws against the grammar.
#![tactic(auto)]

mod definition_laws;
mod extent_laws;
mod frame;
mod laws;
mod refusal_laws;
mod tree_laws;

pub use definition_laws::laws_of_definitions;
pub use extent_laws::laws_of_extents;
pub use frame::{Action, Binder, Binding, Form, Frame, Mode, RecordKind, Scope};
pub use laws::laws_of_reading;
pub use refusal_laws::laws_of_refusals;
pub use tree_laws::laws_of_trees;
