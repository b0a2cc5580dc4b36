//! The order in which the definitions of a module are resolved: what a definition uses stands before it, where some use themselves the others do; and what
//! definitions lead to, and what leads to them.
#![tactic(auto)]

mod apart;
mod laws;
mod reach;
mod table;
mod users;
mod users_reach;
mod walk;

pub use apart::order_apart;
pub use laws::order_laws;
pub use reach::uses_itself;
pub use users::leading;
pub use users_reach::reached;
pub use walk::order;
