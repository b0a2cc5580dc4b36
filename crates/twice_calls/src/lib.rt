//! Laws of calls of the program, from the clauses of its calls alone: what `validate` explained and a file kept, `check` finds valid; where all is read and
//! nothing hinders it, a call decides; the library behind the files changes nothing of what is read without it; a file that is not asked for is not seen.
#![tactic(auto)]

mod answered;
mod assumption_laws;
mod call;
#[cfg(test)]
mod call_tests;
mod library_laws;
mod own_place_laws;
mod printed;
mod run_laws;
mod unseen_laws;

pub use answered::check_answers_valid;
pub use assumption_laws::assumed_law;
pub use call::run_ends;
pub use library_laws::{call_check_law, call_laws};
pub use own_place_laws::own_place_law;
pub use printed::printed_is_valid;
pub use run_laws::{check_law, decided_law, kept_law};
pub use unseen_laws::unseen_law;
