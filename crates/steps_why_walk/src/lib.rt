//! The walk of an action that lists its branches, each with what is filled where it is gone through, or with the reason why it ends.
#![tactic(auto)]

mod changes;
mod ends;
mod failing;
mod forms;
mod leaves;
mod lists;
mod single;

pub use forms::{walk, walk_further};
