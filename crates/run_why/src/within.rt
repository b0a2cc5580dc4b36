//! Whether one more silent step would reach more than is reached.

ghost use Rattle.std.specs.Prelude.{◌≡◌, ◌≤◌, ◌↔◌, ◌++◌, All, Any, Contains, IfOk, IsTrue, OnOk, length, string_bytes};
ghost use Rattle.std.specs.List.Sorted.{IsSorted};
ghost use Rattle.states_core.specs.StateOrder.{state_cmp};
ghost use Rattle.steps_ready_defs.specs.Beside.{IsReady, asked};
ghost use Rattle.run_why.specs.Ends.{IsReachedBySome};
ghost use Rattle.run_why.specs.Telling.{GoesOn, StandsBehind};
ghost use Rattle.run_why.specs.Within.{LeadsBeyond, TellsWithin, WouldReachMore, within_text};

use base_core::NoMemory;
use states_core::State;
use states_layers::{StepFault, Steps};
use std::alloc::{AllocError, Global};
use steps_source::SpecSteps;

/// Adds that one more silent step would reach more than these entries, where it would, and where near lines are wanted.
pub(crate) fn push_within(
    alloc: Global,
    text: &mut String,
    steps: &SpecSteps<'_>,
    entries: &[State],
    wanted: Option<u32>,
) -> Result<(), NoMemory>
    requires ready { IsReady steps.now.spec.now steps.now.log.now }
    requires reached { All (IsReachedBySome steps.now.spec.now steps.now.log.now (asked steps.now.stutter steps.now.within steps.now.limit)) entries.now }
    requires ascend { IsSorted state_cmp entries.now }
    ensures { OnOk result (GoesOn wanted (λ most. TellsWithin steps.now.spec.now (asked steps.now.stutter steps.now.within steps.now.limit) (Contains entries.now))
        (string_bytes text.old) (string_bytes text.new)) }
{
    match wanted {
        Some(_) => push_more_steps(alloc, text, steps, entries),
        None => Ok(()),
    }
}

fn push_more_steps(
    alloc: Global,
    text: &mut String,
    steps: &SpecSteps<'_>,
    entries: &[State],
) -> Result<(), NoMemory>
    requires ready { IsReady steps.now.spec.now steps.now.log.now }
    requires reached { All (IsReachedBySome steps.now.spec.now steps.now.log.now (asked steps.now.stutter steps.now.within steps.now.limit)) entries.now }
    requires ascend { IsSorted state_cmp entries.now }
    ensures { OnOk result (StandsBehind (TellsWithin steps.now.spec.now (asked steps.now.stutter steps.now.within steps.now.limit) (Contains entries.now))
        (string_bytes text.old) (string_bytes text.new)) }
{
    if would_reach_more(alloc, steps, entries)? {
        return push_reached(text, steps.within);
    }
    Ok(())
}

/// Adds the line that tells of it.
fn push_reached(text: &mut String, within: u32) -> Result<(), NoMemory>
    ensures { OnOk result (string_bytes text.new ≡ string_bytes text.old ++ within_text within) }
{
    write!(text, "WITHIN {within} REACHED\n")
}

/// Whether one more silent step would reach more than these entries.
fn would_reach_more(
    alloc: Global,
    steps: &SpecSteps<'_>,
    entries: &[State],
) -> Result<bool, NoMemory>
    requires ready { IsReady steps.now.spec.now steps.now.log.now }
    requires reached { All (IsReachedBySome steps.now.spec.now steps.now.log.now (asked steps.now.stutter steps.now.within steps.now.limit)) entries.now }
    requires ascend { IsSorted state_cmp entries.now }
    ensures { IfOk result (λ more. IsTrue more ↔ WouldReachMore steps.now.spec.now (asked steps.now.stutter steps.now.within steps.now.limit) (Contains entries.now)) }
{
    if steps.within == 8 {
        return Ok(false);
    }
    match steps.spec.silent {
        Some(_) => any_leads_beyond(alloc, steps, entries),
        None => Ok(false),
    }
}

/// Whether a silent step leads from one of these entries beyond all of them.
fn any_leads_beyond(
    alloc: Global,
    steps: &SpecSteps<'_>,
    entries: &[State],
) -> Result<bool, NoMemory>
    requires ready { IsReady steps.now.spec.now steps.now.log.now }
    requires reached { All (IsReachedBySome steps.now.spec.now steps.now.log.now (asked steps.now.stutter steps.now.within steps.now.limit)) entries.now }
    requires ascend { IsSorted state_cmp entries.now }
    ensures { IfOk result (λ some. IsTrue some ↔ Any (LeadsBeyond steps.now.spec.now steps.now.limit (Contains entries.now)) entries.now) }
{
    for from in entries {
        if leads_beyond(alloc, steps, from, entries)? {
            return Ok(true);
        }
    }
    Ok(false)
}

/// Whether a silent step leads from this state beyond these entries.
fn leads_beyond(
    alloc: Global,
    steps: &SpecSteps<'_>,
    from: &State,
    entries: &[State],
) -> Result<bool, NoMemory>
    requires ready { IsReady steps.now.spec.now steps.now.log.now }
    requires reached { IsReachedBySome steps.now.spec.now steps.now.log.now (asked steps.now.stutter steps.now.within steps.now.limit) from.now }
    requires ascend { IsSorted state_cmp entries.now }
    ensures { IfOk result (λ leads. IsTrue leads ↔ LeadsBeyond steps.now.spec.now steps.now.limit (Contains entries.now) from.now) }
{
    match steps.silent(alloc, from, steps.limit) {
        Ok(next) => Ok(goes_beyond(&next, steps.limit, entries)),
        Err(StepFault::NoMemory) => Err(AllocError),
        Err(StepFault::Eval(_)) => Ok(false),
        Err(StepFault::TooMany) => Ok(false),
    }
}

/// Whether these states are no more than the limit, and one of them is none of the entries, which ascend.
fn goes_beyond(states: &[State], limit: u32, entries: &[State]) -> bool
    requires { IsSorted state_cmp entries.now }
    ensures { IsTrue result ↔ ((length states.now ≤ limit) × Any (λ s. ¬ Contains entries.now s) states.now) }
{
    if states.len() > limit as usize {
        return false;
    }
    has_other(states, entries)
}

/// Whether one of these states is none of the entries, which ascend.
fn has_other(states: &[State], entries: &[State]) -> bool
    requires { IsSorted state_cmp entries.now }
    ensures { IsTrue result ↔ Any (λ s. ¬ Contains entries.now s) states.now }
{
    for state in states {
        if !is_among(state, entries) {
            return true;
        }
    }
    false
}

/// Whether the state is one of the entries, which ascend.
fn is_among(state: &State, entries: &[State]) -> bool
    requires { IsSorted state_cmp entries.now }
    ensures { IsTrue result ↔ Contains entries.now state.now }
{
    entries.binary_search(state).is_ok()
}
