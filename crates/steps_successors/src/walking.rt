//! The walk of an operator, where there is one, and then of Next.

ghost use Rattle.std.specs.Prelude.{◌≡◌, ◌++◌, ◌<◌, [], Err, IfErr, IfOk, None, Ok, OnOk, Some, length, map};
ghost use Rattle.states_core.specs.States.{Values};
ghost use Rattle.actions_meanings.specs.declared.which.Which.TheVariants.{Action};
ghost use Rattle.actions_rows.specs.Rows.{before, setting as stage_setting};
ghost use Rattle.steps_lines_defs.specs.Says.{IsState, setting};
ghost use Rattle.steps_lines_defs.specs.Asks.{act_of};
ghost use Rattle.steps_lines_defs.specs.Steps.{silent_act};
ghost use Rattle.steps_ready_defs.specs.Ready.{IsReadySpec};
ghost use Rattle.steps_successors.specs.Taken.{AllGrounded, AllWalked, BothFound, CanStart, act_at};

use actions_form_laws::whole_law;
use actions_meanings::Which;
use actions_rows::Stage;
use base_core::limits::MAX_EVALUATIONS;
use eval_meanings::EvalFault;
use logs_updates::{Event, See};
use names_terms::{DefId, Spec, Term};
use states_core::{Partial, State};
use std::alloc::{AllocError, Global};
use steps_walk::walk;
use steps_walk_laws::orderly_law;
use values_core::Value;

/// A specification, the state before, also as places, and what is seen of the state after.
#[derive(Clone, Copy, Drop)]
pub struct Course<'a> {
    pub spec: &'a Spec,
    pub from: &'a State,
    pub whole: &'a Partial,
    pub sees: &'a [See],
}

/// What its walk is made over.
fn stage_of<'a>(course: Course<'a>) -> Stage<'a>
    ensures setting { stage_setting result ≡ setting Action course.entry.spec.now }
    ensures state { result.state.now ≡ course.entry.whole.now }
    ensures sees { result.sees.now ≡ course.entry.sees.now }
{
    Stage {
        which: Which::Action,
        variables: course.spec.variables.len(),
        operators: &course.spec.operators,
        state: course.whole,
        sees: course.sees,
    }
}

/// Next, from the places.
pub fn next_from(
    alloc: Global,
    course: Course<'_>,
    places: Partial,
) -> Result<Vec<Partial>, EvalFault>
    requires ready { IsReadySpec course.spec.now }
    requires state { IsState (length course.spec.now.variables) course.from.now }
    requires whole { course.whole.now ≡ map Some course.from.now }
    requires start { CanStart course.spec.now course.sees.now None places }
    ensures found { IfOk result (λ found. BothFound course.entry.spec.now course.entry.from.now course.entry.sees.now None places (Ok found.items)) }
    ensures fault { IfErr result (λ fault. BothFound course.entry.spec.now course.entry.from.now course.entry.sees.now None places (Err fault)) }
{
    orderly_law();
    whole_law();
    let stage = stage_of(course);
    walk(
        alloc,
        stage,
        &[],
        MAX_EVALUATIONS,
        places,
        &course.spec.next,
    )
}

/// An operator on arguments, from the places, and then Next.
pub fn act_then_next(
    alloc: Global,
    course: Course<'_>,
    operator: usize,
    arguments: &[Value],
    places: Partial,
) -> Result<Vec<Partial>, EvalFault>
    requires ready { IsReadySpec course.spec.now }
    requires state { IsState (length course.spec.now.variables) course.from.now }
    requires whole { course.whole.now ≡ map Some course.from.now }
    requires within { operator < length course.spec.now.operators }
    requires start { CanStart course.spec.now course.sees.now (Some (act_at operator arguments.now)) places }
    ensures found { IfOk result (λ found. BothFound course.entry.spec.now course.entry.from.now course.entry.sees.now (Some (act_at operator arguments.now)) places (Ok found.items)) }
    ensures fault { IfErr result (λ fault. BothFound course.entry.spec.now course.entry.from.now course.entry.sees.now (Some (act_at operator arguments.now)) places (Err fault)) }
{
    orderly_law();
    whole_law();
    let stage = stage_of(course);
    let slots = slots_of(alloc, arguments)?;
    let definition = &course.spec.operators.items()[operator];
    match walk(
        alloc,
        stage,
        &slots,
        MAX_EVALUATIONS,
        places,
        &definition.body,
    ) {
        Ok(found) => from_each(alloc, stage, found, &course.spec.next),
        Err(fault) => Err(fault),
    }
}

/// The values in their order.
fn slots_of<'a>(alloc: Global, values: &'a [Value]) -> Result<Vec<&'a Value>, AllocError>
    ensures { IfOk result (λ slots. map (λ v. v.now) slots.items ≡ values.now) }
{
    let mut slots = Vec::new(alloc);
    for value in values {
        slots.push(value)?;
    }
    Ok(slots)
}

/// A term without slots, from each of the places.
fn from_each(
    alloc: Global,
    stage: Stage<'_>,
    found: Vec<Partial>,
    term: &Term,
) -> Result<Vec<Partial>, EvalFault>
    requires { AllGrounded (stage_setting stage) 400 stage.sees.now found.items (before stage []) term.now }
    ensures found { IfOk result (λ all. AllWalked (stage_setting stage.entry) 400 stage.entry.sees.now found.items (before stage.entry []) term.now (Ok all.items)) }
    ensures fault { IfErr result (λ fault. AllWalked (stage_setting stage.entry) 400 stage.entry.sees.now found.items (before stage.entry []) term.now (Err fault)) }
{
    let mut all = Vec::new(alloc);
    for places in found {
        match walk(alloc, stage, &[], MAX_EVALUATIONS, places, term) {
            Ok(further) => append(&mut all, further)?,
            Err(fault) => return Err(fault),
        }
    }
    Ok(all)
}

/// Adds places at the end.
fn append(found: &mut Vec<Partial>, more: Vec<Partial>) -> Result<(), AllocError>
    ensures { OnOk result (found.new.items ≡ found.old.items ++ more.items) }
{
    for places in more {
        found.push(places)?;
    }
    Ok(())
}

/// The event of a line, where it has one, and then Next.
pub fn event_found(
    alloc: Global,
    course: Course<'_>,
    event: &Option<Event>,
    places: Partial,
) -> Result<Vec<Partial>, EvalFault>
    requires ready { IsReadySpec course.spec.now }
    requires state { IsState (length course.spec.now.variables) course.from.now }
    requires whole { course.whole.now ≡ map Some course.from.now }
    requires start { CanStart course.spec.now course.sees.now (act_of event.now) places }
    ensures found { IfOk result (λ found. BothFound course.entry.spec.now course.entry.from.now course.entry.sees.now (act_of event.now) places (Ok found.items)) }
    ensures fault { IfErr result (λ fault. BothFound course.entry.spec.now course.entry.from.now course.entry.sees.now (act_of event.now) places (Err fault)) }
{
    match event {
        None => next_from(alloc, course, places),
        Some(event) => act_then_next(alloc, course, event.operator, event.args.items(), places),
    }
}

/// The operator of the steps that no line shows, where there is one, and then Next.
pub fn silent_found(
    alloc: Global,
    course: Course<'_>,
    silent: Option<DefId>,
    places: Partial,
) -> Result<Vec<Partial>, EvalFault>
    requires ready { IsReadySpec course.spec.now }
    requires state { IsState (length course.spec.now.variables) course.from.now }
    requires whole { course.whole.now ≡ map Some course.from.now }
    requires start { CanStart course.spec.now course.sees.now (silent_act silent) places }
    ensures found { IfOk result (λ found. BothFound course.entry.spec.now course.entry.from.now course.entry.sees.now (silent_act silent) places (Ok found.items)) }
    ensures fault { IfErr result (λ fault. BothFound course.entry.spec.now course.entry.from.now course.entry.sees.now (silent_act silent) places (Err fault)) }
{
    match silent {
        None => next_from(alloc, course, places),
        Some(number) => act_then_next(alloc, course, number.0, &[], places),
    }
}
