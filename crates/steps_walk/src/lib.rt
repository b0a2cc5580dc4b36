//! The walk of an action from a partly filled next state: the further filled ones of which it holds, or a fault that it has.
#![tactic(auto)]

mod course;
mod forms;
mod found;
mod leaves;
mod lists;
mod seen;
mod sense;

pub use forms::walk;
