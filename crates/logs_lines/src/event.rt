ghost use Rattle.logs_shapes.specs.Seen.{shape_seen};
ghost use Rattle.values_json.specs.Reads.{Finds};
ghost use Rattle.logs_lines.specs.Lines.{EventIs, event_with, params_of};
ghost use Rattle.std.specs.Prelude.{◌≡◌};

use crate::names::SpecNames;
use logs_shapes::Shape;
use logs_updates::{Event, Values};

/// The operator that the line names, or none where it names one that is not there.
pub(crate) fn event_of<N: SpecNames>(names: &N, shape: &Shape) -> Option<Option<(usize, usize)>>
    ensures { Finds (EventIs (N.setting names.now) (shape_seen shape.now).event) result }
{
    match shape.event {
        None => Some(None),
        Some(name) => match names.operator(name) {
            Some(operator) => Some(Some(operator)),
            None => None,
        },
    }
}

/// How many arguments the operator has; a line without one has none.
pub(crate) fn params_of(event: Option<(usize, usize)>) -> usize
    ensures { result ≡ params_of event }
{
    match event {
        Some((_, params)) => params,
        None => 0,
    }
}

pub(crate) fn event_with(event: Option<(usize, usize)>, args: Values) -> Option<Event>
    ensures { result ≡ event_with event args }
{
    match event {
        Some((operator, _)) => Some(Event { operator, args }),
        None => None,
    }
}
