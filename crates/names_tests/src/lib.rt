//! Rows of names, of their meanings and of parts of terms that no run of the program tells apart.
#![tactic(auto)]

#[cfg(test)]
mod scopes_tests;
#[cfg(test)]
mod term_parts_tests;
