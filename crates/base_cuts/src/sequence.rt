ghost use Rattle.std.specs.Prelude.{◌≡◌, ◌↔◌, ◌≤◌, IsTrue, Some, length, slice_get};
ghost use Rattle.base_cuts.specs.Cuts.{next, total};

use crate::cut::Cut;
use base_clock_order::LineRef;

/// Whether the next line of that log stands where the lines end that are taken.
pub(crate) fn stands_next(lines: &Vec<LineRef>, cut: &Cut, file: usize) -> bool
    requires { total cut.now ≤ length lines.now.items }
    ensures { IsTrue result ↔ (slice_get lines.now.items (total cut.now) ≡ Some (next cut.now file)) }
{
    match lines.get(cut.total()) {
        Some(line) => line.file as usize == file && line.index == cut.taken(file),
        None => false,
    }
}
