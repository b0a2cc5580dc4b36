//! Values of JSON read from a text token by token, so that the room for reading is kept from text to text.
#![tactic(auto)]

mod numbers;
mod reading;
mod rereading;

pub use reading::{Unread, read_value};
pub use rereading::reread_value;
