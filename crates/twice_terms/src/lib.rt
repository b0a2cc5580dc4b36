//! Terms that differ by the numbers of definitions alone are alike in all that is told of them.
#![tactic(auto)]

mod laws;

pub use laws::alike_laws;
