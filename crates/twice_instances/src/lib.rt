//! What an instance says of a state, its module says of the state that it sees there: the term of an instance, and the whole of it.
#![tactic(auto)]

mod instances_laws;
mod seen_states_laws;

pub use instances_laws::made_laws;
pub use seen_states_laws::seen_laws;
