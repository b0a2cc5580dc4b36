//! The lines of several logs in one order.
#![tactic(auto)]

mod order;

pub use order::{LineRef, merge, order_laws};
