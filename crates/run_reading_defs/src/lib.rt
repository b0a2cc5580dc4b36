//! Reading: the order in which the texts of a job are read, which file is read next, and the first refusal in that order. Definitions alone.
#![tactic(auto)]
