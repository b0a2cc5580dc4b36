//! The evaluation of terms: the value of a term, or its fault with the place.
#![tactic(auto)]

mod describing;
mod fault;
mod kinds;
mod made;
mod operate;

pub use describing::{interval, is_within, joined, list_at, named_set, set_at};
pub use fault::EvalFault;
pub use kinds::{expect_function, expect_set, truth_at};
pub use made::{function_of, key_of, sequence_of, set_of};
pub use operate::{infix, prefix, standard};
