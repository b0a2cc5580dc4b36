//! What the lines of a log say: how variables changed, and what holds.
#![tactic(auto)]

mod applying;
mod clock;
mod copies;
mod keys;
mod line;
mod lists;
mod path;
mod seeing;
mod update;
mod values;

pub use applying::apply;
pub use clock::Clock;
pub use copies::{add_sees, copy_line};
pub use keys::{Keys, PathKey};
pub use line::{Event, Line, LineList, Log};
pub use lists::{Sees, Updates};
pub use path::Path;
pub use seeing::seen;
pub use update::{Op, See, Update};
pub use values::Values;
