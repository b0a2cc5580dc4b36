ghost use Rattle.std.specs.Prelude.{◌≡◌, IfOk, MatchBool};
ghost use Rattle.logs_shapes.specs.Seen.{shape_seen};
ghost use Rattle.logs_lines.specs.Clocks.{clock_or};
ghost use Rattle.logs_lines.specs.Lines.{ArgsSay, ClocksSay, FormSays, HasNoForm, NamesSay, OnBack, SeesSay, StepSays, TestsSay, UpdatesSay};

use crate::clocks::{clock_or, fall_of, form_after, is_clock_missing, is_other_form};
use crate::event::{event_of, event_with, params_of};
use crate::fields::{knows_sees, knows_updates, sees_of, updates_of};
use crate::kind::{LogKind, Outcome};
use crate::names::SpecNames;
use crate::position::Position;
use crate::values::read_values;
use base_core::{LineAt, NoMemory};
use logs_shapes::{Key, Shape};
use logs_updates::{Clock, Line, Sees, Updates, Values};
use std::alloc::Global;

/// What a line reads as: the operator that it names with its number of parameters, the arguments, the updates
/// and what is seen.
#[derive(Drop)]
pub(crate) struct Parts {
    pub(crate) event: Option<(usize, usize)>,
    pub(crate) args: Values,
    pub(crate) updates: Updates,
    pub(crate) sees: Sees,
}

/// What a line says that tells of a step.
pub(crate) fn step_line<N: SpecNames>(
    alloc: Global,
    names: &N,
    at: &Position,
    shape: &Shape,
) -> Result<Outcome, NoMemory>
    ensures { IfOk result (StepSays (N.setting names.now) at.now (shape_seen shape.now)) }
{
    if at.room <= at.steps {
        return Ok(Outcome::Refused(LogKind::TooManyLines));
    }
    match event_of(names, shape) {
        Some(event) => step_args(alloc, names, at, shape, event),
        None => Ok(Outcome::Refused(LogKind::UnknownEvent)),
    }
}

fn step_args<N: SpecNames>(
    alloc: Global,
    names: &N,
    at: &Position,
    shape: &Shape,
    event: Option<(usize, usize)>,
) -> Result<Outcome, NoMemory>
    ensures { IfOk result (ArgsSay (N.setting names.now) at.now (shape_seen shape.now) event) }
{
    match read_values(alloc, shape.args)? {
        Some(args) => step_updates(alloc, names, at, shape, event, args),
        None => Ok(Outcome::Refused(LogKind::BadValue(Key::Args))),
    }
}

fn step_updates<N: SpecNames>(
    alloc: Global,
    names: &N,
    at: &Position,
    shape: &Shape,
    event: Option<(usize, usize)>,
    args: Values,
) -> Result<Outcome, NoMemory>
    ensures { IfOk result (UpdatesSay (N.setting names.now) at.now (shape_seen shape.now) event args) }
{
    match updates_of(alloc, names, shape)? {
        Some(updates) => step_sees(alloc, names, at, shape, event, args, updates),
        None => Ok(Outcome::Refused(LogKind::BadValue(Key::Update))),
    }
}

fn step_sees<N: SpecNames>(
    alloc: Global,
    names: &N,
    at: &Position,
    shape: &Shape,
    event: Option<(usize, usize)>,
    args: Values,
    updates: Updates,
) -> Result<Outcome, NoMemory>
    ensures { IfOk result (SeesSay (N.setting names.now) at.now (shape_seen shape.now) event args updates) }
{
    match sees_of(alloc, names, shape)? {
        Some(sees) => step_tests(
            alloc,
            names,
            at,
            shape,
            Parts {
                event,
                args,
                updates,
                sees,
            },
        ),
        None => Ok(Outcome::Refused(LogKind::BadValue(Key::See))),
    }
}

fn step_tests<N: SpecNames>(
    alloc: Global,
    names: &N,
    at: &Position,
    shape: &Shape,
    parts: Parts,
) -> Result<Outcome, NoMemory>
    ensures { IfOk result (TestsSay (N.setting names.now) at.now (shape_seen shape.now) parts) }
{
    let found = parts.args.len();
    let needed = params_of(parts.event);
    if found != needed {
        return Ok(Outcome::Refused(LogKind::WrongArgs(found, needed)));
    }
    step_clock(alloc, names, at, shape, parts)
}

fn step_clock<N: SpecNames>(
    alloc: Global,
    names: &N,
    at: &Position,
    shape: &Shape,
    parts: Parts,
) -> Result<Outcome, NoMemory>
    ensures { IfOk result (ClocksSay (N.setting names.now) at.now (shape_seen shape.now) parts) }
{
    if is_clock_missing(at.many, shape) {
        return Ok(Outcome::Refused(LogKind::NoClock));
    }
    if is_other_form(at.form, shape) {
        return Ok(Outcome::Refused(LogKind::ClockKind));
    }
    let clock = clock_or(alloc, &at.clock, shape)?;
    step_back(names, at, shape, parts, clock)
}

fn step_back<N: SpecNames>(
    names: &N,
    at: &Position,
    shape: &Shape,
    parts: Parts,
    clock: Clock,
) -> Result<Outcome, NoMemory>
    requires { clock ≡ clock_or at.now.clock (shape_seen shape.now).clock }
    ensures { IfOk result (OnBack at.now.clock clock (NamesSay (N.setting names.now) at.now (shape_seen shape.now) parts)) }
{
    let fall = fall_of(&at.clock, &clock)?;
    match fall {
        Some(kind) => Ok(Outcome::Refused(kind)),
        None => step_names(names, at, shape, parts, clock),
    }
}

fn step_names<N: SpecNames>(
    names: &N,
    at: &Position,
    shape: &Shape,
    parts: Parts,
    clock: Clock,
) -> Result<Outcome, NoMemory>
    requires { clock ≡ clock_or at.now.clock (shape_seen shape.now).clock }
    ensures { IfOk result (NamesSay (N.setting names.now) at.now (shape_seen shape.now) parts) }
{
    if !knows_updates(names, shape) {
        return Ok(Outcome::Refused(LogKind::UnknownVariable));
    }
    if !knows_sees(names, shape) {
        return Ok(Outcome::Refused(LogKind::UnknownVariable));
    }
    step_form(names, at, shape, parts, clock)
}

fn step_form<N: SpecNames>(
    names: &N,
    at: &Position,
    shape: &Shape,
    parts: Parts,
    clock: Clock,
) -> Result<Outcome, NoMemory>
    requires { clock ≡ clock_or at.now.clock (shape_seen shape.now).clock }
    ensures { IfOk result (FormSays (N.setting names.now) at.now (shape_seen shape.now) parts) }
{
    let formed = has_form(names, parts.event, &parts.updates)?;
    if !formed {
        return Ok(Outcome::Refused(LogKind::EventNotFixed));
    }
    let line = Line {
        at: LineAt {
            file: at.file,
            line: at.line,
        },
        clock,
        event: event_with(parts.event, parts.args),
        updates: parts.updates,
        sees: parts.sees,
    };
    Ok(Outcome::Step(line, form_after(at.form, shape)))
}

/// Whether the operator that the line names has a form; a line that names none needs none.
fn has_form<N: SpecNames>(
    names: &N,
    event: Option<(usize, usize)>,
    updates: &Updates,
) -> Result<bool, NoMemory>
    ensures { IfOk result (λ b. MatchBool b (¬ HasNoForm (N.setting names.now) event updates.now) (HasNoForm (N.setting names.now) event updates.now)) }
{
    match event {
        Some((operator, _)) => names.has_form(operator, updates),
        None => Ok(true),
    }
}
