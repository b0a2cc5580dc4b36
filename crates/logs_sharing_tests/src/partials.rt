ghost use Rattle.std.specs.Prelude.{◌<◌, ◌≡◌, IfOk, length};

use crate::forms::{Form, made};
use crate::outcomes::Told;
use states_core::{Env, Partial, State, VarId};
use std::alloc::{AllocError, Global};
use values_core::{OpFault, Value};

/// A call that is given a state, some of its places, or values of slots.
#[derive(Clone, Copy, Drop)]
pub enum Call {
    /// A copy of places is written.
    Copy,
    /// What was copied is written, and the copy stays.
    First,
    /// Places of a state are written, and the state stays.
    Of,
    /// The state of places stays when they are written.
    Whole,
    /// A copy of a state is let go.
    State,
    /// A copy of slots gets one more.
    Env,
}

/// A row: its name and the call.
pub struct Row(pub &'static str, pub Call);

pub const ROWS: [Row; 6] = [
    Row("a copy of places", Call::Copy),
    Row("places that were copied", Call::First),
    Row("places of a state", Call::Of),
    Row("the state of places", Call::Whole),
    Row("a copy of a state", Call::State),
    Row("a copy of slots", Call::Env),
];

/// What comes of the row.
pub fn outcome(alloc: Global, call: Call) -> Told {
    run(alloc, call).unwrap_or(Told::NoMemory)
}

fn run(alloc: Global, call: Call) -> Result<Told, OpFault> {
    match call {
        Call::Copy => copy_written(alloc),
        Call::First => first_written(alloc),
        Call::Of => state_kept(alloc),
        Call::Whole => whole_kept(alloc),
        Call::State => state_copied(alloc),
        Call::Env => slots_copied(alloc),
    }
}

/// The state of a sequence and a set, which share nothing with another such state.
fn state(alloc: Global) -> Result<State, OpFault>
    ensures { IfOk result (λ s. length s ≡ 2) }
{
    let sequence = made(alloc, Form::Sequence)?;
    let set = made(alloc, Form::Set)?;
    Ok(two(alloc, sequence, set)?)
}

fn two(alloc: Global, one: Value, other: Value) -> Result<State, AllocError>
    ensures { IfOk result (λ s. length s ≡ 2) }
{
    let mut values = Vec::new(alloc);
    values.push(one)?;
    values.push(other)?;
    Ok(State::new(values))
}

fn places(alloc: Global) -> Result<Partial, OpFault>
    ensures { IfOk result (λ p. length p ≡ 2) }
{
    let state = state(alloc)?;
    Ok(Partial::of(alloc, &state)?)
}

/// Whether the places have the values of the state.
fn are_of(places: &Partial, state: &State) -> bool {
    is_at(places, state, 0) && is_at(places, state, 1)
}

fn is_at(places: &Partial, state: &State, number: u16) -> bool {
    match (places.get(VarId(number)), state.get(number as usize)) {
        (Some(place), Some(value)) => place.same(value),
        _ => false,
    }
}

/// Whether the first place has the integer 7, and the second the state's value.
fn is_written(places: &Partial, state: &State) -> bool {
    is_seven(places.get(VarId(0))) && is_at(places, state, 1)
}

fn is_seven(place: Option<&Value>) -> bool {
    match place {
        Some(value) => value.as_int() == Some(7),
        None => false,
    }
}

/// Writes the integer 7 into the first of two places, and tells whether there was memory.
fn write(places: &mut Partial) -> bool
    requires { 0 < length places.old }
{
    match places.put(VarId(0), Value::int(7)) {
        Ok(()) => true,
        Err(_) => false,
    }
}

/// What comes of a write of which only these should know, where the others should not.
fn told_written(is_done: bool, written: &Partial, others: &Partial, twin: &State) -> Told {
    if is_done {
        return Told::of(is_written(written, twin) && are_of(others, twin));
    }
    Told::of_refused(are_of(written, twin) && are_of(others, twin))
}

fn copy_written(alloc: Global) -> Result<Told, OpFault> {
    let twin = state(alloc)?;
    let first = places(alloc)?;
    let mut copy = first.copy(alloc)?;
    let is_done = write(&mut copy);
    Ok(told_written(is_done, &copy, &first, &twin))
}

fn first_written(alloc: Global) -> Result<Told, OpFault> {
    let twin = state(alloc)?;
    let mut first = places(alloc)?;
    let copy = first.copy(alloc)?;
    let is_done = write(&mut first);
    Ok(told_written(is_done, &first, &copy, &twin))
}

fn state_kept(alloc: Global) -> Result<Told, OpFault> {
    let twin = state(alloc)?;
    let first = state(alloc)?;
    let mut places = Partial::of(alloc, &first)?;
    let is_done = write(&mut places);
    let is_kept = first.same(&twin);
    if is_done {
        return Ok(Told::of(is_kept && is_written(&places, &twin)));
    }
    Ok(Told::of_refused(is_kept && are_of(&places, &twin)))
}

fn whole_kept(alloc: Global) -> Result<Told, OpFault> {
    let twin = state(alloc)?;
    let mut places = places(alloc)?;
    let Some(whole) = places.whole(alloc)? else {
        return Ok(Told::Wrong);
    };
    let is_done = write(&mut places);
    let is_kept = whole.same(&twin);
    if is_done {
        return Ok(Told::of(is_kept && is_written(&places, &twin)));
    }
    Ok(Told::of_refused(is_kept && are_of(&places, &twin)))
}

fn state_copied(alloc: Global) -> Result<Told, OpFault> {
    let twin = state(alloc)?;
    let first = state(alloc)?;
    let copy = first.copy(alloc)?;
    let is_equal = copy.same(&twin);
    drop(first);
    Ok(Told::of(is_equal && copy.same(&twin)))
}

fn slots_copied(alloc: Global) -> Result<Told, OpFault> {
    let twin = made(alloc, Form::Sequence)?;
    let mut first = Env::empty(alloc);
    first.push(made(alloc, Form::Sequence)?)?;
    let mut copy = first.copy(alloc)?;
    let is_done = copy.push(Value::int(7)).is_ok();
    let is_kept = has_first(&first, &twin) && first.len() == 1 && has_first(&copy, &twin);
    if is_done {
        return Ok(Told::of(is_kept && copy.len() == 2));
    }
    Ok(Told::of_refused(is_kept && copy.len() == 1))
}

fn has_first(slots: &Env, value: &Value) -> bool {
    match slots.get(0) {
        Some(slot) => slot.same(value),
        None => false,
    }
}
