//! The shape of a log's line: which keys it has and how their contents are built, with no value read yet.
#![tactic(auto)]

mod clock;
mod contents;
mod key;
mod members;
mod object;
mod parts;
mod path;
mod raw;
mod reading;
mod shape;

pub use clock::{RawClock, count_of};
pub use key::{Key, Word};
pub use object::{LineObject, LineScratch, Slot, line_object};
pub use parts::{see_of, update_of};
pub use path::path_of;
pub use raw::{RawPath, RawSee, RawUpdate};
pub use reading::{line_shape, object_shape};
pub use shape::Shape;
