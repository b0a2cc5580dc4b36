//! What a log says of a specification: layers of entries, as states, grown one from another.
#![tactic(auto)]

mod answer;
mod assumptions;
mod back;
mod growth;
mod last;
mod layer;
mod member;
mod node;
mod repeats;
mod search;
mod sharing;
mod steps;

pub use answer::Answer;
pub use assumptions::judge;
pub use last::Searched;
pub use member::Member;
pub use search::{search_entries, search_layers};
pub use sharing::SharedValues;
pub use steps::{StepFault, Steps};
