ghost use Rattle.std.specs.Prelude.{◌≡◌, ◌≤◌, [], ◌∷◌, ◌++◌, length, OnOk, OnErr, MatchOption, Some, slice_get};

use base_core::NoMemory;
use std::alloc::Global;
use std::marker::Model;

/// A definition, by its number from 0 in the specification.
#[derive(Clone, Copy, Debug, Drop, PartialEq, Eq, PartialOrd, Ord)]
pub struct DefId(pub usize);

/// Definitions in their order, seen as the list of their numbers.
#[derive(Debug, Drop)]
pub struct DefIds {
    items: Vec<usize>,
}

impl Model for DefIds {
    ghost use Rattle.std.specs.Prelude.{List, ℕ};

    ghost Value = { List ℕ };

    ghost view = { λ n. n.items.items };
}

impl DefIds {
    /// No definitions.
    pub fn new(alloc: Global) -> DefIds
        ensures { result ≡ [] }
    {
        DefIds {
            items: Vec::new(alloc),
        }
    }

    /// Adds a definition at the end. On a refusal the list is as it was.
    pub fn push(&mut self, item: DefId) -> Result<(), NoMemory>
        ensures pushed { OnOk result (self.new ≡ self.old ++ item.0 ∷ []) }
        ensures kept { OnErr result (self.new ≡ self.old) }
    {
        self.items.push(item.0)?;
        Ok(())
    }

    /// How many definitions there are.
    pub fn len(&self) -> usize
        ensures { result ≡ length self.now }
    {
        self.items.len()
    }

    /// The definition of that index, from 0.
    pub fn get(&self, i: usize) -> Option<DefId>
        ensures { MatchOption result (length self.now ≤ i) (λ d. slice_get self.now i ≡ Some d.0) }
    {
        match self.items.get(i) {
            Some(number) => Some(DefId(*number)),
            None => None,
        }
    }
}
