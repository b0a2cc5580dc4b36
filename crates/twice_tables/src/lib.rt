//! Two tables of one program differ by the numbers of definitions alone, and what comes of a program with its configuration is one.
#![tactic(auto)]

mod one_outcome_laws;
mod tables_laws;

pub use one_outcome_laws::outcome_laws;
pub use tables_laws::table_laws;
