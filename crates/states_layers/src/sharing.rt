//! Equal values of the entries of one line, which share their memory.

ghost use Rattle.std.specs.Prelude.{◌≡◌, IfOk};
ghost use Rattle.std.specs.Option.{IfSome};

use indexmap::IndexSet;
use states_core::State;
use std::alloc::{AllocError, Global};
use values_core::{Value, ValueKind};

/// Sets and functions that entries have, each once.
#[derive(Drop)]
pub struct SharedValues {
    alloc: Global,
    values: IndexSet<Value>,
}

impl SharedValues {
    /// None is known.
    pub fn new(alloc: Global) -> SharedValues {
        SharedValues {
            alloc,
            values: IndexSet::new(alloc),
        }
    }

    /// An equal state, whose sets and functions are those that are known, where they are.
    pub fn shared(&mut self, state: State) -> Result<State, AllocError>
        ensures { IfOk result (λ same. same ≡ state) }
    {
        if !has_large(state.values()) {
            return Ok(state);
        }
        let mut values = Vec::with_capacity(self.alloc, state.values().len())?;
        for value in state.values() {
            values.push(self.known(value)?)?;
        }
        Ok(State::new(values))
    }

    /// An equal value: the one that is known, or else a copy, which is known from now on.
    fn known(&mut self, value: &Value) -> Result<Value, AllocError>
        ensures { IfOk result (λ same. same ≡ value.now) }
    {
        if !is_large(value) {
            return value.copy();
        }
        match self.find(value) {
            Some(known) => known.copy(),
            None => self.kept(value),
        }
    }

    /// The value that is known and equal to this one.
    fn find(&self, value: &Value) -> Option<&Value>
        ensures { IfSome result (λ known. known.now ≡ value.now) }
    {
        self.values.get(value)
    }

    /// A copy, of which another is known from now on.
    fn kept(&mut self, value: &Value) -> Result<Value, AllocError>
        ensures { IfOk result (λ same. same ≡ value.now) }
    {
        let known = value.copy()?;
        self.values.insert(known)?;
        value.copy()
    }
}

/// Whether one of the values has memory to share.
fn has_large(values: &[Value]) -> bool {
    for value in values {
        if is_large(value) {
            return true;
        }
    }
    false
}

/// Whether the value has memory to share, beside a text.
fn is_large(value: &Value) -> bool {
    matches!(value.kind(), ValueKind::Set | ValueKind::Function)
}
