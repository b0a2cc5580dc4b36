//! Rows of modules in pieces: how many units are read, and which names the pieces declare that are not.
#![tactic(auto)]

#[cfg(test)]
mod tests;
