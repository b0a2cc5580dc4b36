//! The rows of the grammar that are open while an expression is read: the stack of them, what operators make of them, and how many constructs
//! are unfinished in them.
#![tactic(auto)]

mod counted;
mod folding;
mod infix;
mod joining;
mod nesting;
mod stack;
mod stepped;

pub use counted::Stack;
pub use folding::settle;
pub use infix::{infix_of_symbol, infix_step};
pub use joining::{begins_member, join};
pub use nesting::unfinished_at;
pub use stack::{deliver, pop, push, want};
pub use stepped::{Joined, Stepped};
