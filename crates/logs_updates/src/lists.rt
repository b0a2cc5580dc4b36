ghost use Rattle.std.specs.Prelude.{◌≡◌, ◌≤◌, ◌++◌, [], ◌∷◌, length, slice_get, IfOk, MatchOption, OnOk, OnErr, Some};

use crate::update::{See, Update};
use base_core::NoMemory;
use std::alloc::Global;
use std::marker::Model;

/// Updates in the order in which they apply, seen as the list of them.
#[derive(Drop)]
pub struct Updates {
    items: Vec<Update>,
}

impl Model for Updates {
    ghost use Rattle.std.specs.Prelude.{List};
    ghost use Rattle.logs_updates.specs.declared.update.Update.{Update};
    ghost use Rattle.logs_updates.specs.UpdateCodes.{updates_code};

    ghost Value = { List Update };

    ghost coded = { updates_code };

    ghost view = { λ l. l.items.items };
}

impl Updates {
    pub fn new(alloc: Global) -> Updates
        ensures { result ≡ [] }
    {
        Updates {
            items: Vec::new(alloc),
        }
    }

    /// Room for this many items, and none yet.
    pub fn with_capacity(alloc: Global, count: usize) -> Result<Updates, NoMemory>
        ensures { IfOk result (λ list. list ≡ []) }
    {
        let items = Vec::with_capacity(alloc, count)?;
        Ok(Updates { items })
    }

    /// Adds an item at the end, or nothing where memory is wanting.
    pub fn push(&mut self, item: Update) -> Result<(), NoMemory>
        ensures pushed { OnOk result (self.new ≡ self.old ++ item ∷ []) }
        ensures kept { OnErr result (self.new ≡ self.old) }
    {
        self.items.push(item)?;
        Ok(())
    }

    pub fn len(&self) -> usize
        ensures { result ≡ length self.now }
    {
        self.items.len()
    }

    /// The item of this number, from 0.
    pub fn get(&self, index: usize) -> Option<&Update>
        ensures { MatchOption result (length self.now ≤ index) (λ item. slice_get self.now index ≡ Some item.now) }
    {
        self.items.get(index)
    }

    pub fn items(&self) -> &[Update]
        ensures { result.now ≡ self.now }
    {
        &self.items
    }
}

/// What holds, seen as the list of it.
#[derive(Drop)]
pub struct Sees {
    items: Vec<See>,
}

impl Model for Sees {
    ghost use Rattle.std.specs.Prelude.{List};
    ghost use Rattle.logs_updates.specs.declared.update.See.{See};
    ghost use Rattle.logs_updates.specs.UpdateCodes.{sees_code};

    ghost Value = { List See };

    ghost coded = { sees_code };

    ghost view = { λ l. l.items.items };
}

impl Sees {
    pub fn new(alloc: Global) -> Sees
        ensures { result ≡ [] }
    {
        Sees {
            items: Vec::new(alloc),
        }
    }

    /// Room for this many items, and none yet.
    pub fn with_capacity(alloc: Global, count: usize) -> Result<Sees, NoMemory>
        ensures { IfOk result (λ list. list ≡ []) }
    {
        let items = Vec::with_capacity(alloc, count)?;
        Ok(Sees { items })
    }

    /// Adds an item at the end, or nothing where memory is wanting.
    pub fn push(&mut self, item: See) -> Result<(), NoMemory>
        ensures pushed { OnOk result (self.new ≡ self.old ++ item ∷ []) }
        ensures kept { OnErr result (self.new ≡ self.old) }
    {
        self.items.push(item)?;
        Ok(())
    }

    pub fn len(&self) -> usize
        ensures { result ≡ length self.now }
    {
        self.items.len()
    }

    /// The item of this number, from 0.
    pub fn get(&self, index: usize) -> Option<&See>
        ensures { MatchOption result (length self.now ≤ index) (λ item. slice_get self.now index ≡ Some item.now) }
    {
        self.items.get(index)
    }

    pub fn items(&self) -> &[See]
        ensures { result.now ≡ self.now }
    {
        &self.items
    }
}
