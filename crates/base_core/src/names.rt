ghost use Rattle.std.specs.Prelude.{◌≡◌, ◌↔◌, ◌<◌, [], ◌∷◌, ◌++◌, length, OnOk, OnErr, IsSome, option_copied, slice_get};

use crate::NoMemory;
use crate::text::Text;
use std::alloc::Global;
use std::marker::Model;

// A list type is written as this one, beside its items: a struct with the one field `items`, a
// `Model` whose value is the list of the items as contracts see them, and these five calls under
// these clauses.

/// A list of names, seen as the list of their bytes.
#[derive(Debug, Drop)]
pub struct Names {
    items: Vec<Text>,
}

impl Model for Names {
    ghost use Rattle.std.specs.Prelude.{List, ℕ};

    ghost Value = { List (List ℕ) };

    ghost view = { λ n. n.items.items };
}

impl Names {
    /// No names.
    pub fn new(alloc: Global) -> Names
        ensures { result ≡ [] }
    {
        Names {
            items: Vec::new(alloc),
        }
    }

    /// Adds a name at the end. On a refusal the list is as it was.
    pub fn push(&mut self, item: Text) -> Result<(), NoMemory>
        ensures pushed { OnOk result (self.new ≡ self.old ++ item ∷ []) }
        ensures kept { OnErr result (self.new ≡ self.old) }
    {
        self.items.push(item)?;
        Ok(())
    }

    /// How many names there are.
    pub fn len(&self) -> usize
        ensures { result ≡ length self.now }
    {
        self.items.len()
    }

    /// The name of that index, from 0.
    pub fn get(&self, i: usize) -> Option<&Text>
        ensures item { option_copied result ≡ slice_get self.now i }
        ensures within { IsSome result ↔ (i < length self.now) }
    {
        self.items.get(i)
    }

    /// The names as a slice.
    pub fn items(&self) -> &[Text]
        ensures { result.now ≡ self.now }
    {
        &self.items
    }
}
