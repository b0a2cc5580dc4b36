ghost use Rattle.std.specs.Prelude.{◌≡◌, ◌≤◌, ◌++◌, [], ◌∷◌, IfOk, MatchOption, OnErr, OnOk, Some, length, slice_get, take};

use crate::state::copied;
use base_core::NoMemory;
use std::alloc::Global;
use std::marker::Model;
use values_core::Value;

/// The values of parameters and bound names by their slots, from 0, the outermost first; seen as the list of them.
#[derive(Drop)]
pub struct Env {
    values: Vec<Value>,
}

impl Model for Env {
    ghost use Rattle.std.specs.Prelude.{List};
    ghost use Rattle.values_core.specs.Data.{Val};
    ghost use Rattle.states_core.specs.StateCodes.{values_code};

    ghost Value = { List Val };

    ghost coded = { values_code };

    ghost view = { λ e. e.values.items };
}

impl Env {
    /// No values.
    pub fn empty(alloc: Global) -> Env
        ensures { result ≡ [] }
    {
        Env {
            values: Vec::new(alloc),
        }
    }

    /// How many values there are.
    pub fn len(&self) -> usize
        ensures { result ≡ length self.now }
    {
        self.values.len()
    }

    /// The value of the slot.
    pub fn get(&self, slot: usize) -> Option<&Value>
        ensures { MatchOption result (length self.now ≤ slot) (λ v. slice_get self.now slot ≡ Some v.now) }
    {
        self.values.get(slot)
    }

    /// Adds the value of the next slot. On a refusal they are as they were.
    pub fn push(&mut self, value: Value) -> Result<(), NoMemory>
        ensures pushed { OnOk result (self.new ≡ self.old ++ value ∷ []) }
        ensures kept { OnErr result (self.new ≡ self.old) }
    {
        self.values.push(value)?;
        Ok(())
    }

    /// Keeps the first `length` values.
    pub fn cut(&mut self, length: usize)
        ensures { self.new ≡ take length self.old }
    {
        self.values.truncate(length);
    }

    /// Equal values.
    pub fn copy(&self, alloc: Global) -> Result<Env, NoMemory>
        ensures { IfOk result (λ e. e ≡ self.now) }
    {
        let values = copied(alloc, &self.values)?;
        Ok(Env { values })
    }
}
