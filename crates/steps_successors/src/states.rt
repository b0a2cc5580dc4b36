ghost use Rattle.std.specs.Prelude.{◌≡◌, ◌∷◌, [], IfOk, OnOk};
ghost use Rattle.indexmap.specs.IndexSet.{insert_key};
ghost use Rattle.states_core.specs.Sets.{IsList};
ghost use Rattle.states_core.specs.StateOrder.{state_eq};
ghost use Rattle.states_layers.specs.Gives.{Gives};
ghost use Rattle.steps_successors.specs.Among.{Adds, IsAmong};

use indexmap::IndexSet;
use states_core::{Partial, State};
use states_layers::StepFault;
use std::alloc::{AllocError, Global};

/// The states that places are, each once, unless there are more than `bound`. Places of which one is empty are no state.
pub fn states_of(alloc: Global, found: &[Partial], bound: u32) -> Result<Vec<State>, StepFault>
    ensures { Gives (IsAmong found.now) (λ t f. ⊥) (λ t. Unit {0}) bound result }
{
    match found {
        [only] => Ok(state_of(alloc, only)?),
        _ => different_states(alloc, found, bound),
    }
}

/// The state that the places are, if none of them is empty.
fn state_of(alloc: Global, places: &Partial) -> Result<Vec<State>, AllocError>
    ensures { IfOk result (λ list. IsList (IsAmong (places.now ∷ [])) list.items) }
{
    match places.whole(alloc)? {
        Some(state) => one_state(alloc, state),
        None => Ok(Vec::new(alloc)),
    }
}

/// The state alone.
fn one_state(alloc: Global, state: State) -> Result<Vec<State>, AllocError>
    ensures { IfOk result (λ list. list.items ≡ state ∷ []) }
{
    let mut states = Vec::new(alloc);
    states.push(state)?;
    Ok(states)
}

fn different_states(alloc: Global, found: &[Partial], bound: u32) -> Result<Vec<State>, StepFault>
    ensures { Gives (IsAmong found.now) (λ t f. ⊥) (λ t. Unit {0}) bound result }
{
    let mut states = IndexSet::new(alloc);
    for places in found {
        add_state(alloc, &mut states, places)?;
        if states.len() > bound as usize {
            return Err(StepFault::TooMany);
        }
    }
    Ok(into_list(alloc, states)?)
}

/// Adds the state that the places are where it is not there.
fn add_state(
    alloc: Global,
    states: &mut IndexSet<State>,
    places: &Partial,
) -> Result<(), AllocError>
    ensures { OnOk result (Adds places.now states.old.keys states.new.keys) }
{
    match places.whole(alloc)? {
        Some(state) => add(states, state),
        None => Ok(()),
    }
}

/// Adds the state where it is not there.
fn add(states: &mut IndexSet<State>, state: State) -> Result<(), AllocError>
    ensures { OnOk result (states.new.keys ≡ insert_key state_eq states.old.keys state) }
{
    states.insert(state)?;
    Ok(())
}

/// The states in their order.
fn into_list(alloc: Global, states: IndexSet<State>) -> Result<Vec<State>, AllocError>
    ensures { IfOk result (λ list. list.items ≡ states.keys) }
{
    let mut list = Vec::new(alloc);
    for state in states {
        list.push(state)?;
    }
    Ok(list)
}
