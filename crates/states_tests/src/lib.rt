//! Rows of the operations on values and of the search over layers that no run of the program calls: runs, with what they give.
#![tactic(auto)]

#[cfg(test)]
mod forms;
#[cfg(test)]
mod layers_tests;
#[cfg(test)]
mod operations_tests;
#[cfg(test)]
mod shared;
