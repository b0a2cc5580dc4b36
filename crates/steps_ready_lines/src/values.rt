//! That the arguments of events are values.

ghost use Rattle.std.specs.Prelude.{All};
ghost use Rattle.steps_ready_lines.specs.Lines.{HasValues, HaveValues};
ghost use Rattle.eval_meanings.specs.Laws.{AreValues};

use logs_tied::Lined;
use logs_updates::{Event, Line, LineList, Log};
use values_core::Value;

/// That the arguments of each line's event are values.
pub fn known_values(log: &Log)
    ensures { All (λ line. HasValues line.event) log.now.lines }
{
    values_in_lines(log.lines.items());
}

/// The same of the lines of all logs.
pub fn known_values_over(lined: &Lined)
    ensures { HaveValues lined.now }
{
    match lined {
        Lined::Sequence(log) => known_values(log),
        Lined::Tied(logs) => values_in_files(logs.files.as_slice()),
    }
}

fn values_in_files(files: &[LineList])
    ensures { All (λ lines. All (λ line. HasValues line.event) lines) files.now }
{
    for lines in files {
        values_in_lines(lines.items());
    }
}

fn values_in_lines(lines: &[Line])
    ensures { All (λ line. HasValues line.event) lines.now }
{
    for line in lines {
        event_values(&line.event);
    }
}

fn event_values(event: &Option<Event>)
    ensures { HasValues event.now }
{
    match event {
        Some(event) => are_values(event.args.items()),
        None => (),
    }
}

fn are_values(values: &[Value])
    ensures { AreValues values.now }
{
    for value in values {
        value.is_value();
    }
}
