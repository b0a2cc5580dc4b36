//! Names that are bound around a place of a tree.

ghost use Rattle.std.specs.Prelude.{◌≡◌, [], ◌∷◌, ◌++◌, length, take, OnOk};
ghost use Rattle.names_instances.specs.Made.{bound_by};
ghost use Rattle.names_scopes.specs.Mentions.{is_one_of};

use base_core::{NoMemory, Text};
use names_scopes::is_one_of;
use reading_trees::Bounds;
use std::alloc::Global;
use std::marker::Model;

/// The names that are bound around a place, from the outermost, seen as the list of them.
#[derive(Drop)]
pub(crate) struct BoundNames {
    names: Vec<Text>,
}

impl Model for BoundNames {
    ghost use Rattle.std.specs.Prelude.{List, ℕ};

    ghost Value = { List (List ℕ) };

    ghost view = { λ b. b.names.items };
}

impl BoundNames {
    /// No names.
    pub fn new(alloc: Global) -> BoundNames
        ensures { result ≡ [] }
    {
        BoundNames {
            names: Vec::new(alloc),
        }
    }

    /// How many names there are.
    pub fn len(&self) -> usize
        ensures { result ≡ length self.now }
    {
        self.names.len()
    }

    /// Adds a name.
    pub fn push(&mut self, name: &Text) -> Result<(), NoMemory>
        ensures { OnOk result (self.new ≡ self.old ++ name.now ∷ []) }
    {
        let name = name.copy()?;
        self.names.push(name)?;
        Ok(())
    }

    /// Adds names in their order.
    pub fn push_all(&mut self, names: &[Text]) -> Result<(), NoMemory>
        ensures { OnOk result (self.new ≡ self.old ++ names.now) }
    {
        for name in names {
            self.push(name)?;
        }
        Ok(())
    }

    /// Adds the names that bounds bind.
    pub fn push_bounds(&mut self, bounds: &Bounds) -> Result<(), NoMemory>
        ensures { OnOk result (self.new ≡ self.old ++ bound_by bounds.now) }
    {
        for bound in bounds.items() {
            self.push_all(bound.names.items())?;
        }
        Ok(())
    }

    /// Lets go of all but the first names, so many of them.
    pub fn cut(&mut self, len: usize)
        ensures { self.new ≡ take len self.old }
    {
        self.names.truncate(len);
    }

    /// Whether the name is among these.
    pub fn bind(&self, name: &Text) -> bool
        ensures { result ≡ is_one_of name.now self.now }
    {
        is_one_of(name, &self.names)
    }
}
