//! The table of a program's definitions, or the first of its names that means nothing.
#![tactic(auto)]

mod assumed;
mod declaring;
mod empty;
mod fault;
mod own;
mod recursion;
mod table;
mod term;
mod values;

pub use assumed::assumption_terms;
pub use fault::first_name_fault;
pub use table::{Table, program_table};
pub use values::{constant_values, first_without_value, one_too_many};
