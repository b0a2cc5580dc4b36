//! Names that are bound around a place.

ghost use Rattle.std.specs.Prelude.{◌≡◌, ◌≤◌, [], ◌∷◌, ◌++◌, length, take, OnOk, OnErr};
ghost use Rattle.names_scopes.specs.Scopes.{bind, bind_bounds, slots, bound};

use crate::meant::{Meant, Named};
use base_core::{NoMemory, Text};
use names_terms::DefId;
use reading_trees::Bounds;
use std::alloc::Global;
use std::marker::Model;

/// A name that is bound around a place.
#[derive(Drop)]
pub enum Local {
    /// A parameter, a bound name or `@`: it takes a slot.
    Bound(Text),
    /// A definition of a LET, and how many parameters it has.
    Defined(Text, DefId, usize),
}

/// The names that are bound around a place, from the outermost, seen as the list of them.
#[derive(Drop)]
pub struct Scope {
    items: Vec<Local>,
}

impl Model for Scope {
    ghost use Rattle.std.specs.Prelude.{List};
    ghost use Rattle.names_scopes.specs.declared.scope.Local.{Local};

    ghost Value = { List Local };

    ghost view = { λ s. s.items.items };
}

impl Scope {
    ghost use Rattle.names_scopes.specs.Standing.{AddsSlots};

    /// No names.
    pub fn new(alloc: Global) -> Scope
        ensures { result ≡ [] }
    {
        Scope {
            items: Vec::new(alloc),
        }
    }

    /// How many names there are.
    pub fn len(&self) -> usize
        ensures { result ≡ length self.now }
    {
        self.items.len()
    }

    /// Adds a name behind the others. On a refusal the scope is as it was.
    pub fn push(&mut self, item: Local) -> Result<(), NoMemory>
        ensures pushed { OnOk result (self.new ≡ self.old ++ item ∷ []) }
        ensures kept { OnErr result (self.new ≡ self.old) }
    {
        self.items.push(item)?;
        Ok(())
    }

    /// Binds names, each behind those before it.
    #[tactic(auto, using(crate::proofs::ScopeLemmas::adds_one))]
    pub fn bind(&mut self, names: &[Text]) -> Result<(), NoMemory>
        ensures bound { OnOk result (self.new ≡ bind self.old names.now) }
        ensures slots { AddsSlots self.old self.new }
    {
        for name in names {
            self.push(Local::Bound(name.copy()?))?;
        }
        Ok(())
    }

    /// Binds the names of bounds.
    pub fn bind_bounds(&mut self, bounds: &Bounds) -> Result<(), NoMemory>
        ensures bound { OnOk result (self.new ≡ bind_bounds self.old bounds.now) }
        ensures slots { AddsSlots self.old self.new }
    {
        for bound in bounds.items() {
            self.bind(bound.names.items())?;
        }
        Ok(())
    }

    /// Lets go of all but the first names, so many of them.
    pub fn cut(&mut self, len: usize)
        ensures { self.new ≡ take len self.old }
    {
        self.items.truncate(len);
    }

    /// How many slots the names take.
    pub fn slots(&self) -> usize
        ensures { result ≡ slots self.now }
    {
        let mut count = 0;
        for local in &self.items {
            match local {
                Local::Bound(_) => count += 1,
                Local::Defined(_, _, _) => {}
            }
        }
        count
    }

    /// What a name means among these: the last of that name.
    pub fn meaning(&self, name: &Text) -> Option<Named>
        ensures { result ≡ bound self.now name.now }
    {
        let mut found = None;
        let mut slot = 0;
        for local in &self.items {
            match local {
                Local::Bound(other) => {
                    if *other == *name {
                        found = Some(Named {
                            needed: 0,
                            meant: Meant::Slot(slot),
                        });
                    }
                    slot += 1;
                }
                Local::Defined(other, number, params) => {
                    if *other == *name {
                        found = Some(Named {
                            needed: *params,
                            meant: Meant::Definition(*number),
                        });
                    }
                }
            }
        }
        found
    }
}
