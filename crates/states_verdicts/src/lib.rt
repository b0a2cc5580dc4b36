//! A second look at printed states: each is judged by the one before it, and nothing is searched for.
#![tactic(auto)]

mod checking;
mod judging;
mod laws;
mod pairs;
mod verdict;

pub use checking::check;
pub use laws::{clean_law, found_law, one_law};
pub use pairs::{Pairs, Told};
pub use verdict::{Reason, Verdict};
