//! The rows that are open, with the number of unfinished constructs in them.

ghost use Rattle.reading_open_rows.specs.Unfinished.{of_frames};
ghost use Rattle.std.specs.Prelude.{◌≡◌, reverse};

use reading_machine::Frame;

/// What is open, the innermost last, and how many unfinished constructs that is.
#[derive(Drop)]
pub struct Stack {
    pub frames: Vec<Frame>,
    pub unfinished: u64,
    ghost exact: { unfinished ≡ of_frames (reverse frames.items) },
}
