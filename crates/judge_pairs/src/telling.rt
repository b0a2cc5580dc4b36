//! What evaluation tells of Init at a state, and of an operator and of Next at two.

ghost use Rattle.std.specs.Prelude.{◌≡◌, [], IfOk, Some, length, map};
ghost use Rattle.actions_meanings.specs.declared.which.Which.TheVariants.{Action, Init};
ghost use Rattle.steps_lines_defs.specs.Says.{IsState, setting};
ghost use Rattle.steps_lines_defs.specs.Asks.{act_of};
ghost use Rattle.steps_lines_defs.specs.Steps.{FaultFirst, IsInitial, silent_act};
ghost use Rattle.judge_truth.specs.Pairs.{at, setting as pair_setting};
ghost use Rattle.judge_truth.specs.Truths.{everything};
ghost use Rattle.states_verdicts.specs.Tellings.{Tells};
ghost use Rattle.steps_ready_defs.specs.Ready.{IsReadySpec};
ghost use Rattle.judge_pairs.specs.Telling.{CanAct, CanBoth, CanDecide, IsActTold, IsBothTold, IsDecided, IsNextTold, IsReadyBetween, act_at, standing, told_of};

use actions_form_laws::staying_laws;
use actions_meanings::Which;
use base_core::limits::MAX_EVALUATIONS;
use eval_parts::{Scene, definition};
use judge_truth::{Pair, Told as Decided, decide};
use logs_updates::Event;
use names_terms::{DefId, Spec, Term};
use states_core::{Partial, State};
use states_verdicts::Told;
use std::alloc::{AllocError, Global};
use steps_walk_laws::orderly_law;
use values_core::Value;

/// A specification and two of its states, also as places.
#[derive(Clone, Copy, Drop)]
pub struct Between<'a> {
    pub spec: &'a Spec,
    pub from: &'a State,
    pub to: &'a State,
    pub before: &'a Partial,
    pub after: &'a Partial,
}

/// What is decided, as it is told of pairs.
fn as_told(decided: Decided) -> Told
    ensures { result ≡ told_of decided }
{
    match decided {
        Decided::Holds => Told::Holds,
        Decided::HoldsNot => Told::Fails,
        Decided::Faults(fault) => Told::Faults(fault),
    }
}

/// What is told of a term.
fn tell(alloc: Global, pair: Pair<'_>, term: &Term) -> Result<Told, AllocError>
    requires { CanDecide (pair_setting pair) (at pair) term.now }
    ensures { IfOk result (λ told. IsDecided (pair_setting pair.entry) (at pair.entry) term.now told) }
{
    let decided = decide(alloc, pair, MAX_EVALUATIONS, term)?;
    Ok(as_told(decided))
}

/// Init, at a state.
fn pair_of_init<'a>(spec: &'a Spec, state: &'a Partial) -> Pair<'a>
    ensures setting { pair_setting result ≡ setting Init spec.now }
    ensures context { at result ≡ record { slots = []; now = state.now; next = state.now } }
{
    Pair {
        which: Which::Init,
        variables: spec.variables.len(),
        scene: Scene {
            operators: &spec.operators,
            slots: &[],
            state,
            next: state,
        },
    }
}

/// What is told of the initial predicate at a state.
pub fn tell_init(alloc: Global, spec: &Spec, state: &State) -> Result<Told, AllocError>
    requires ready { IsReadySpec spec.now }
    requires state { IsState (length spec.now.variables) state.now }
    ensures { IfOk result (λ told. Tells (IsInitial spec.now state.now) (FaultFirst spec.now everything state.now) told) }
{
    orderly_law();
    staying_laws();
    let places = Partial::of(alloc, state)?;
    tell(alloc, pair_of_init(spec, &places), &spec.init)
}

/// An action with these slots, at the two states.
fn pair_of<'a>(between: Between<'a>, slots: &'a [&'a Value]) -> Pair<'a>
    ensures setting { pair_setting result ≡ setting Action between.entry.spec.now }
    ensures context { at result ≡ standing between.entry (map (λ v. v.now) slots.entry.now) }
{
    Pair {
        which: Which::Action,
        variables: between.spec.variables.len(),
        scene: Scene {
            operators: &between.spec.operators,
            slots,
            state: between.before,
            next: between.after,
        },
    }
}

/// What is told of Next.
fn tell_next(alloc: Global, between: Between<'_>) -> Result<Told, AllocError>
    requires { IsReadyBetween between }
    ensures { IfOk result (λ told. IsNextTold between.entry told) }
{
    orderly_law();
    staying_laws();
    tell(alloc, pair_of(between, &[]), &between.spec.next)
}

/// The values in their order.
fn slots_of<'a>(alloc: Global, values: &'a [Value]) -> Result<Vec<&'a Value>, AllocError>
    ensures { IfOk result (λ slots. map (λ v. v.now) slots.items ≡ values.now) }
{
    let mut slots = Vec::new(alloc);
    for value in values {
        slots.push(value)?;
    }
    Ok(slots)
}

/// What is told of an operator on arguments.
fn tell_act(
    alloc: Global,
    between: Between<'_>,
    number: usize,
    arguments: &[Value],
) -> Result<Told, AllocError>
    requires ready { IsReadyBetween between }
    requires call { CanAct between.spec.now (act_at number arguments.now) }
    ensures { IfOk result (λ told. IsActTold between.entry (act_at number arguments.now) told) }
{
    orderly_law();
    staying_laws();
    let slots = slots_of(alloc, arguments)?;
    let operator = definition(&between.spec.operators, DefId(number));
    tell(alloc, pair_of(between, &slots), &operator.body)
}

/// What is told of an operator on arguments and of Next, which is asked only where the operator holds.
fn tell_both(
    alloc: Global,
    between: Between<'_>,
    operator: usize,
    arguments: &[Value],
) -> Result<Told, AllocError>
    requires ready { IsReadyBetween between }
    requires call { CanAct between.spec.now (act_at operator arguments.now) }
    ensures { IfOk result (λ told. IsBothTold between.entry (Some (act_at operator arguments.now)) told) }
{
    let told = tell_act(alloc, between, operator, arguments)?;
    match told {
        Told::Holds => tell_next(alloc, between),
        Told::Fails => Ok(Told::Fails),
        Told::Faults(fault) => Ok(Told::Faults(fault)),
    }
}

/// What is told of a line's event, where it has one, and of Next.
pub fn tell_event(
    alloc: Global,
    between: Between<'_>,
    event: &Option<Event>,
) -> Result<Told, AllocError>
    requires ready { IsReadyBetween between }
    requires call { CanBoth between.spec.now (act_of event.now) }
    ensures { IfOk result (λ told. IsBothTold between.entry (act_of event.now) told) }
{
    match event {
        None => tell_next(alloc, between),
        Some(event) => tell_both(alloc, between, event.operator, event.args.items()),
    }
}

/// What is told of the operator of the steps that no line shows, where there is one, and of Next.
pub fn tell_silent(
    alloc: Global,
    between: Between<'_>,
    silent: Option<DefId>,
) -> Result<Told, AllocError>
    requires ready { IsReadyBetween between }
    requires call { CanBoth between.spec.now (silent_act silent) }
    ensures { IfOk result (λ told. IsBothTold between.entry (silent_act silent) told) }
{
    match silent {
        None => tell_next(alloc, between),
        Some(number) => tell_both(alloc, between, number.0, &[]),
    }
}
