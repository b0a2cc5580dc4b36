ghost use Rattle.std.specs.Prelude.{◌≡◌, ◌<◌, ◌↔◌, IsTrue, Some, length, slice_get, true};
ghost use Rattle.steps_lines_defs.specs.Asks.{HasNoEvent};

use logs_updates::{Line, Log};

/// The line of that number.
pub fn line_of(log: &Log, number: u32) -> &Line
    requires { number < length log.now.lines }
    ensures { slice_get log.now.lines number ≡ Some result.now }
{
    match log.lines.get(number as usize) {
        Some(line) => line,
        None => unreachable!(),
    }
}

/// Whether the state may stay as it is in the line's step.
pub fn may_stay(stutter: bool, line: &Line) -> bool
    ensures { IsTrue result ↔ ((stutter ≡ true) × HasNoEvent line.now.event) }
{
    if !stutter {
        return false;
    }
    match &line.event {
        Some(_) => false,
        None => true,
    }
}
