//! The walk of a line's event, where it has one, and then of Next.

ghost use Rattle.std.specs.Prelude.{◌≡◌, ◌<◌, ◌≤◌, ◌∷◌, [], IfOk, length, map};
ghost use Rattle.actions_meanings.specs.declared.which.Which.TheVariants.{Action};
ghost use Rattle.actions_rows.specs.Rows.{setting as stage_setting};
ghost use Rattle.steps_lines_defs.specs.Says.{IsState, setting};
ghost use Rattle.steps_ready_defs.specs.Ready.{IsReadyLine, IsReadySpec};
ghost use Rattle.steps_why_not.specs.Results.{AreUpdated};
ghost use Rattle.steps_why_not.specs.Taken.{AreEnds, IsBodyOf};

use actions_form_laws::whole_law;
use actions_meanings::Which;
use actions_rows::Stage;
use base_core::NoMemory;
use base_core::limits::MAX_EVALUATIONS;
use logs_updates::Line;
use names_terms::{Spec, Term};
use states_core::{Partial, State};
use std::alloc::{AllocError, Global};
use steps_walk_laws::orderly_law;
use steps_why_branches::{Ended, Sparing};
use steps_why_walk::walk_further;
use values_core::Value;

/// The ends of the first branches of the line from the places that its updates fill, at most `room` of them, where some parts may be passed over.
pub fn line_ends(
    alloc: Global,
    spec: &Spec,
    line: &Line,
    from: &State,
    sparing: Sparing,
    room: usize,
    places: Partial,
) -> Result<Vec<Ended>, NoMemory>
    requires ready { IsReadySpec spec.now }
    requires fits { IsReadyLine spec.now line.now }
    requires state { IsState (length spec.now.variables) from.now }
    requires room { 1 ≤ room }
    requires updated { AreUpdated line.now.updates from.now places }
    ensures { IfOk result (λ ends. AreEnds sparing spec.now line.now from.now room places ends.items) }
{
    orderly_law();
    whole_law();
    let whole = Partial::of(alloc, from)?;
    let stage = stage_of(spec, &whole);
    let start = one_end(alloc, Ended::Passed(places, None))?;
    match &line.event {
        None => walk_further(
            alloc,
            stage,
            &[],
            sparing,
            MAX_EVALUATIONS,
            room,
            start,
            &spec.next,
        ),
        Some(event) => {
            let values = event.args.items();
            let slots = slots_of(alloc, values)?;
            let body = body_of(spec, event.operator);
            let found = walk_further(
                alloc,
                stage,
                &slots,
                sparing,
                MAX_EVALUATIONS,
                room,
                start,
                body,
            )?;
            walk_further(
                alloc,
                stage,
                &[],
                sparing,
                MAX_EVALUATIONS,
                room,
                found,
                &spec.next,
            )
        }
    }
}

/// The body of the definition of that number.
fn body_of<'a>(spec: &'a Spec, number: usize) -> &'a Term
    requires { number < length spec.now.operators }
    ensures { IsBodyOf spec.now number result.now }
{
    let definition = &spec.operators.items()[number];
    &definition.body
}

/// What the walk is made over. It looks at nothing that is seen.
fn stage_of<'a>(spec: &'a Spec, whole: &'a Partial) -> Stage<'a>
    ensures setting { stage_setting result ≡ setting Action spec.now }
    ensures state { result.state.now ≡ whole.now }
{
    Stage {
        which: Which::Action,
        variables: spec.variables.len(),
        operators: &spec.operators,
        state: whole,
        sees: &[],
    }
}

/// The end alone.
fn one_end(alloc: Global, end: Ended) -> Result<Vec<Ended>, NoMemory>
    ensures { IfOk result (λ ends. ends.items ≡ end ∷ []) }
{
    let mut ends = Vec::new(alloc);
    ends.push(end)?;
    Ok(ends)
}

/// The values in their order.
fn slots_of<'a>(alloc: Global, values: &'a [Value]) -> Result<Vec<&'a Value>, AllocError>
    ensures { IfOk result (λ slots. map (λ v. v.now) slots.items ≡ values.now) }
{
    let mut slots = Vec::new(alloc);
    for value in values {
        slots.push(value)?;
    }
    Ok(slots)
}
