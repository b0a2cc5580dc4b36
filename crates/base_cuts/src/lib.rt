//! How far several logs are taken, and the orders in which their lines may stand.
#![tactic(auto)]

mod clock;
mod cut;
mod laws;
mod least;
mod order;
mod sequence;

pub use cut::Cut;
pub use laws::{cut_laws, merge_laws, sequence_laws, vector_laws};
pub use order::Order;
