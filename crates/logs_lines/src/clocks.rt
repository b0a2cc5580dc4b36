ghost use Rattle.std.specs.Prelude.{◌≡◌, ◌↔◌, ◌++◌, [], ◌∷◌, IfOk, IsTrue, MatchOption, OnOk};
ghost use Rattle.serde_json.specs.View.{members_view, view};
ghost use Rattle.logs_shapes.specs.ClockSeen.{counts_in};
ghost use Rattle.logs_shapes.specs.Seen.{shape_seen};
ghost use Rattle.logs_updates.specs.declared.clock.Clock.TheVariants.{Number, Vector};
ghost use Rattle.logs_lines.specs.Clocks.{FallsBack, IsMissing, IsNoLower, IsOtherForm, clock_or, form_after, stamp_of, stamps_of};

use crate::kind::LogKind;
use base_clocks::{Stamp, Stamps};
use base_core::{NoMemory, Text};
use logs_shapes::{RawClock, Shape, count_of};
use logs_updates::Clock;
use serde_json::{Map, Value as Json};
use std::alloc::Global;

/// The form of the first clock that was read, if one was.
#[derive(Clone, Copy, Debug, Drop)]
pub enum ClockForm {
    Free,
    Number,
    Vector,
}

/// Whether a clock is wanted, and there is none.
pub(crate) fn is_clock_missing(many: bool, shape: &Shape) -> bool
    ensures { IsTrue result ↔ IsMissing many (shape_seen shape.now).clock }
{
    match shape.clock {
        Some(_) => false,
        None => many,
    }
}

/// Whether the line has a clock of another form than those before.
pub(crate) fn is_other_form(form: ClockForm, shape: &Shape) -> bool
    ensures { IsTrue result ↔ IsOtherForm form (shape_seen shape.now).clock }
{
    match shape.clock {
        None => false,
        Some(RawClock::Number(_)) => match form {
            ClockForm::Free | ClockForm::Number => false,
            ClockForm::Vector => true,
        },
        Some(RawClock::Nodes(_)) => match form {
            ClockForm::Free | ClockForm::Vector => false,
            ClockForm::Number => true,
        },
    }
}

/// The form of the clocks behind the line.
pub(crate) fn form_after(form: ClockForm, shape: &Shape) -> ClockForm
    ensures { result ≡ form_after form (shape_seen shape.now).clock }
{
    match shape.clock {
        None => form,
        Some(RawClock::Number(_)) => ClockForm::Number,
        Some(RawClock::Nodes(_)) => ClockForm::Vector,
    }
}

/// The clock of the line, or that before where it has none.
pub(crate) fn clock_or(alloc: Global, before: &Clock, shape: &Shape) -> Result<Clock, NoMemory>
    ensures { IfOk result (λ clock. clock ≡ clock_or before.now (shape_seen shape.now).clock) }
{
    match shape.clock {
        None => before.copy(alloc),
        Some(RawClock::Number(number)) => Ok(Clock::Number(number)),
        Some(RawClock::Nodes(members)) => vector_of(alloc, members),
    }
}

fn vector_of(alloc: Global, members: &Map<String, Json>) -> Result<Clock, NoMemory>
    ensures { IfOk result (λ clock. clock ≡ Vector (stamps_of (counts_in (members_view members.now.entries)))) }
{
    let mut stamps = Stamps::new(alloc);
    for (node, content) in members.iter() {
        push_stamp(alloc, &mut stamps, node.as_str(), content)?;
    }
    Ok(Clock::Vector(stamps))
}

/// Adds the number of one node. That there is a number, the shape of the line has told.
fn push_stamp(
    alloc: Global,
    stamps: &mut Stamps,
    node: &str,
    content: &Json,
) -> Result<(), NoMemory>
    ensures { OnOk result (stamps.new ≡ stamps.old ++ stamp_of node.now (view content.now) ∷ []) }
{
    let node = Text::from_text(alloc, node)?;
    let number = count_of(content).unwrap_or(0);
    stamps.push(Stamp { node, number })
}

/// Why the clock may not stand behind the one before, if it may not.
pub(crate) fn fall_of(before: &Clock, clock: &Clock) -> Result<Option<LogKind>, NoMemory>
    ensures { IfOk result (λ o. MatchOption o (IsNoLower before.now clock.now) (FallsBack before.now clock.now)) }
{
    match before {
        Clock::Number(before) => match clock {
            Clock::Number(now) => Ok(number_fall(*before, *now)),
            Clock::Vector(_) => Ok(None),
        },
        Clock::Vector(before) => match clock {
            Clock::Number(_) => Ok(None),
            Clock::Vector(now) => vector_fall(before, now),
        },
    }
}

fn number_fall(before: i64, now: i64) -> Option<LogKind>
    ensures { MatchOption result (IsNoLower (Number before) (Number now)) (FallsBack (Number before) (Number now)) }
{
    if now < before {
        return Some(LogKind::ClockBack(before, now));
    }
    None
}

fn vector_fall(before: &Stamps, now: &Stamps) -> Result<Option<LogKind>, NoMemory>
    ensures { IfOk result (λ o. MatchOption o (IsNoLower (Vector before.now) (Vector now.now)) (FallsBack (Vector before.now) (Vector now.now))) }
{
    match before.first_fall(now) {
        None => Ok(None),
        Some(node) => {
            let name = node.copy()?;
            Ok(Some(LogKind::VectorBack(name, before.number(node), now.number(node))))
        }
    }
}
