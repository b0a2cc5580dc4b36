ghost use Rattle.std.specs.Prelude.{◌≡◌, ◌<◌, IfOk, MatchOption, None, OnErr, OnOk, Some, length, map, replicate, slice_get, slice_set};
ghost use Rattle.states_core.specs.Partials.{HasEmpty};
ghost use Rattle.values_core.specs.Data.{Val};

use crate::VarId;
use crate::state::State;
use base_core::NoMemory;
use std::alloc::{AllocError, Global};
use std::marker::Model;
use std::rc::Rc;
use values_core::Value;

/// Places, each empty or with a value, seen as the list of them.
#[derive(Drop)]
struct Places {
    items: Vec<Option<Value>>,
}

impl Model for Places {
    ghost use Rattle.std.specs.Prelude.{List, Option};
    ghost use Rattle.values_core.specs.Data.{Val};
    ghost use Rattle.states_core.specs.StateCodes.{places_code};

    ghost Value = { List (Option Val) };

    ghost coded = { places_code };

    ghost view = { λ p. p.items.items };
}

impl Clone for Places {
    ghost is_clone = { λ places copy. copy ≡ places };

    fn clone(&self) -> Result<Places, AllocError> {
        let alloc = *self.items.allocator();
        let mut items = Vec::with_capacity(alloc, self.items.len())?;
        for place in &self.items {
            match place {
                Some(value) => items.push(Some(value.copy()?))?,
                None => items.push(None)?,
            }
        }
        Ok(Places { items })
    }
}

impl Places {
    /// Gives the place this value.
    fn put(&mut self, index: usize, value: Value)
        requires within { index < length self.old }
        ensures { self.new ≡ slice_set self.old index (Some value) }
    {
        self.items[index] = Some(value);
    }
}

/// A state of which some values may be unknown, seen as the list of its places, each empty or with a value. Copies share
/// their places until one of them is written.
#[derive(Drop)]
pub struct Partial {
    places: Rc<Places>,
}

impl Model for Partial {
    ghost use Rattle.std.specs.Prelude.{List, Option};
    ghost use Rattle.values_core.specs.Data.{Val};
    ghost use Rattle.states_core.specs.StateCodes.{places_code};

    ghost Value = { List (Option Val) };

    ghost coded = { places_code };

    ghost view = { λ p. p.places.value };
}

impl Partial {
    /// So many empty places.
    pub fn empty(alloc: Global, count: u16) -> Result<Partial, NoMemory>
        ensures { IfOk result (λ p. p ≡ replicate count None) }
    {
        let mut places = Vec::with_capacity(alloc, count as usize)?;
        for _ in 0..count {
            places.push(None)?;
        }
        shared(alloc, places)
    }

    /// The places of a state, each with its value.
    pub fn of(alloc: Global, state: &State) -> Result<Partial, NoMemory>
        ensures { IfOk result (λ p. p ≡ map Some state.now) }
    {
        let mut places = Vec::with_capacity(alloc, state.values().len())?;
        for value in state.values() {
            places.push(Some(value.copy()?))?;
        }
        shared(alloc, places)
    }

    /// The value of the variable, if its place is there and has one.
    pub fn get(&self, v: VarId) -> Option<&Value>
        ensures { MatchOption result ((w : Val) → ¬ (slice_get self.now v.0 ≡ Some (Some w))) (λ w. slice_get self.now v.0 ≡ Some (Some w.now)) }
    {
        match self.places.items.get(v.0 as usize) {
            Some(Some(value)) => Some(value),
            _ => None,
        }
    }

    /// Gives the variable this value. For want of memory the places are as they were.
    pub fn put(&mut self, v: VarId, value: Value) -> Result<(), NoMemory>
        requires within { v.0 < length self.old }
        ensures put { OnOk result (self.new ≡ slice_set self.old v.0 (Some value)) }
        ensures kept { OnErr result (self.new ≡ self.old) }
    {
        let places = Rc::make_mut(&mut self.places)?;
        places.put(v.0 as usize, value);
        Ok(())
    }

    /// The state, if no place is empty.
    pub fn whole(&self, alloc: Global) -> Result<Option<State>, NoMemory>
        ensures { IfOk result (λ o. MatchOption o (HasEmpty self.now) (λ s. map Some s ≡ self.now)) }
    {
        let places = &self.places.items;
        let mut values = Vec::with_capacity(alloc, places.len())?;
        for place in places {
            match place {
                Some(value) => values.push(value.copy()?)?,
                None => return Ok(None),
            }
        }
        Ok(Some(State::new(values)))
    }

    /// Equal places, which both share.
    pub fn copy(&self, _alloc: Global) -> Result<Partial, NoMemory>
        ensures { IfOk result (λ p. p ≡ self.now) }
    {
        Ok(Partial {
            places: self.places.clone()?,
        })
    }
}

/// These places, to be shared.
fn shared(alloc: Global, items: Vec<Option<Value>>) -> Result<Partial, NoMemory>
    ensures { IfOk result (λ p. p ≡ items.items) }
{
    let places = Rc::new(alloc, Places { items })?;
    Ok(Partial { places })
}
