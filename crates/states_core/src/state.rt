ghost use Rattle.std.specs.Prelude.{◌≡◌, ◌++◌, [], ◌∷◌, ◌↔◌, ◌≤◌, length, reverse, slice_get, Some, MatchOption, OnOk, OnErr, IfOk, IsTrue};
ghost use Rattle.states_core.specs.StateHash.{state_hash};

use base_core::LineAt;
use std::alloc::{AllocError, Global};
use std::marker::Model;
use values_core::Value;

mod order;

/// One value for each variable, in the order in which the variables are declared, seen as the list of them. Their hash is
/// kept, so that a state is told from others without a look at its values.
#[derive(Drop)]
pub struct State {
    values: Vec<Value>,
    hash: u64,
}

impl Model for State {
    ghost use Rattle.std.specs.Prelude.{◌≡◌, List};
    ghost use Rattle.values_core.specs.Data.{Val};
    ghost use Rattle.states_core.specs.StateCodes.{values_code};
    ghost use Rattle.states_core.specs.StateHash.{state_hash};

    ghost Value = { List Val };

    ghost coded = { values_code };

    ghost view = { λ s. s.values.items };

    ghost invariant = { λ s. s.hash ≡ state_hash s.values.items };
}

impl State {
    pub fn new(values: Vec<Value>) -> State
        ensures { result ≡ values.items }
    {
        let hash = hash_of(&values);
        State { values, hash }
    }

    /// The value of the variable with this number, from 0.
    pub fn get(&self, index: usize) -> Option<&Value>
        ensures { MatchOption result (length self.now ≤ index) (λ v. slice_get self.now index ≡ Some v.now) }
    {
        self.values.get(index)
    }

    pub fn values(&self) -> &[Value]
        ensures { result.now ≡ self.now }
    {
        &self.values
    }

    /// An equal state.
    pub fn copy(&self, alloc: Global) -> Result<State, AllocError>
        ensures { IfOk result (λ s. s ≡ self.now) }
    {
        let values = copied(alloc, &self.values)?;
        Ok(State {
            values,
            hash: self.hash,
        })
    }

    /// Whether both have the same values.
    pub fn same(&self, other: &State) -> bool
        ensures { IsTrue result ↔ (self.now ≡ other.now) }
    {
        self == other
    }
}

/// The hash of a state with these values.
#[tactic(auto, unfolding(crate::specs::StateHash::state_hash))]
fn hash_of(values: &Vec<Value>) -> u64
    ensures { result ≡ state_hash values.now.items }
{
    Value::hash_of_all(values)
}

/// Copies of the values, in their order.
pub(crate) fn copied(alloc: Global, values: &Vec<Value>) -> Result<Vec<Value>, AllocError>
    ensures { IfOk result (λ copies. copies.items ≡ values.now.items) }
{
    let mut copies = Vec::with_capacity(alloc, values.len())?;
    for value in values {
        copies.push(value.copy()?)?;
    }
    Ok(copies)
}

/// How a state was reached: as a first one, by a step that no line shows, or by the step of a line.
#[derive(Clone, Copy, Debug, Drop, PartialEq, Eq)]
pub enum Mark {
    Init,
    Silent,
    Line(LineAt),
}

/// A state and how it was reached.
#[derive(Drop)]
pub struct Shown {
    pub mark: Mark,
    pub state: State,
}

/// States in the order in which they were reached, seen as the list of them.
#[derive(Drop)]
pub struct Behaviour {
    items: Vec<Shown>,
}

impl Model for Behaviour {
    ghost use Rattle.std.specs.Prelude.{List};
    ghost use Rattle.states_core.specs.declared.state.Shown.{Shown};
    ghost use Rattle.states_core.specs.Codes.{behaviour_code};

    ghost Value = { List Shown };

    ghost coded = { behaviour_code };

    ghost view = { λ b. b.items.items };
}

impl Behaviour {
    pub fn new(alloc: Global) -> Behaviour
        ensures { result ≡ [] }
    {
        Behaviour {
            items: Vec::new(alloc),
        }
    }

    /// Adds a state at the end, or nothing where memory is wanting.
    pub fn push(&mut self, item: Shown) -> Result<(), AllocError>
        ensures ok { OnOk result (self.new ≡ self.old ++ item ∷ []) }
        ensures err { OnErr result (self.new ≡ self.old) }
    {
        self.items.push(item)?;
        Ok(())
    }

    pub fn len(&self) -> usize
        ensures { result ≡ length self.now }
    {
        self.items.len()
    }

    /// The state with this number, from 0.
    pub fn get(&self, index: usize) -> Option<&Shown>
        ensures { MatchOption result (length self.now ≤ index) (λ shown. slice_get self.now index ≡ Some shown.now) }
    {
        self.items.get(index)
    }

    pub fn items(&self) -> &[Shown]
        ensures { result.now ≡ self.now }
    {
        &self.items
    }

    /// Turns the order round.
    pub fn reverse(&mut self)
        ensures { self.new ≡ reverse self.old }
    {
        self.items.reverse();
    }
}
