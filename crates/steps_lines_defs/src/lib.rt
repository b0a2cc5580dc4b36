//! Which steps a line of a log allows, by what a specification says of states.
#![tactic(auto)]
