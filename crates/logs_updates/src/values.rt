ghost use Rattle.std.specs.Prelude.{◌≡◌, ◌≤◌, ◌++◌, [], ◌∷◌, length, slice_get, IfOk, MatchOption, OnOk, OnErr, Some};

use base_core::NoMemory;
use std::alloc::Global;
use std::marker::Model;
use values_core::Value;

/// Values in order, seen as the list of them.
#[derive(Drop)]
pub struct Values {
    items: Vec<Value>,
}

impl Model for Values {
    ghost use Rattle.std.specs.Prelude.{List};
    ghost use Rattle.values_core.specs.Data.{Val};
    ghost use Rattle.logs_updates.specs.PathCodes.{values_code};

    ghost Value = { List Val };

    ghost coded = { values_code };

    ghost view = { λ l. l.items.items };
}

impl Values {
    pub fn new(alloc: Global) -> Values
        ensures { result ≡ [] }
    {
        Values {
            items: Vec::new(alloc),
        }
    }

    /// Room for this many items, and none yet.
    pub fn with_capacity(alloc: Global, count: usize) -> Result<Values, NoMemory>
        ensures { IfOk result (λ list. list ≡ []) }
    {
        let items = Vec::with_capacity(alloc, count)?;
        Ok(Values { items })
    }

    /// Adds an item at the end, or nothing where memory is wanting.
    pub fn push(&mut self, item: Value) -> Result<(), NoMemory>
        ensures pushed { OnOk result (self.new ≡ self.old ++ item ∷ []) }
        ensures kept { OnErr result (self.new ≡ self.old) }
    {
        self.items.push(item)?;
        Ok(())
    }

    pub fn len(&self) -> usize
        ensures { result ≡ length self.now }
    {
        self.items.len()
    }

    /// The item of this number, from 0.
    pub fn get(&self, index: usize) -> Option<&Value>
        ensures { MatchOption result (length self.now ≤ index) (λ item. slice_get self.now index ≡ Some item.now) }
    {
        self.items.get(index)
    }

    pub fn items(&self) -> &[Value]
        ensures { result.now ≡ self.now }
    {
        &self.items
    }
}
