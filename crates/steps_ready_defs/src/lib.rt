//! When a specification beside a log is ready to be asked for its steps: what the search and the checker both ask for.
#![tactic(auto)]
