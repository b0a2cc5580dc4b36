//! Why no step of a line goes from a state: the branches through its event, where it has one, and Next, and where and why each ends.
#![tactic(auto)]

mod answer;
mod asking;
mod reasons;
mod stuck;
mod through;

pub use answer::Whys;
pub use asking::why;
pub use reasons::stands_in;
pub use through::line_ends;
