ghost use Rattle.std.specs.Prelude.{◌≡◌, ◌<◌, Some, length, slice_get};

use logs_updates::{Line, Log};

/// The line of that number.
pub fn line_of(log: &Log, number: u32) -> &Line
    requires { number < length log.now.lines }
    ensures { slice_get log.now.lines number ≡ Some result.now }
{
    match log.lines.get(number as usize) {
        Some(line) => line,
        None => unreachable!(),
    }
}
