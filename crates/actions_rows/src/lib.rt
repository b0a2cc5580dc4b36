//! The rows by which an action is walked: which form a term has, as it is taken apart in Rust.
#![tactic(auto)]

mod arms;
mod differing;
mod part;
mod row;
mod scenes;
mod stage;
mod values;

pub use arms::chosen_arm;
pub use differing::{changed_truth, part_truth};
pub use part::{Part, part_place, plain_parts, unchanged_parts};
pub use row::{Row, behind, row_of};
pub use scenes::scene_at;
pub use stage::Stage;
pub use values::kept_value;
