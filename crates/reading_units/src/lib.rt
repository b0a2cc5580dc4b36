//! Modules of TLA+: from laid tokens to syntax trees.
#![tactic(auto)]

mod extends;
mod instances;
mod laid_ends;
mod marks;
mod module_laws;
mod names;
mod operators;
mod reader;
mod units;

pub use laid_ends::laid_ends_once;
pub use module_laws::{one_module, shallow_not_refused};
pub use reader::module;
pub use reading_expressions::ParseFault;
