//! The names of a program.

ghost use Rattle.std.specs.Prelude.{◌≡◌, [], ◌∷◌, ◌++◌, OnOk, OnErr, MatchOption, None, Some, option_copied, slice_get};
ghost use Rattle.names_scopes.specs.Scopes.{among};

use crate::meant::{Entry, Meant};
use base_core::{NoMemory, Text};
use std::alloc::{AllocError, Global};
use std::collections::HashMap;
use std::marker::Model;

/// The names of a program with what they mean, seen as the list of them. Of equal names the first counts.
#[derive(Drop)]
pub struct ProgramNames {
    entries: Vec<Entry>,
    places: HashMap<Text, usize>,
}

impl Model for ProgramNames {
    ghost use Rattle.std.specs.Prelude.{List};
    ghost use Rattle.names_scopes.specs.declared.meant.Entry.{Entry};
    ghost use Rattle.std.specs.Coded.{codes};
    ghost use Rattle.values_core.specs.Tree.{val_code};

    ghost Value = { List Entry };

    ghost coded = { Prim.hlevel (codes, val_code) };

    ghost use Rattle.names_scopes.specs.Placed.{ArePlaced};

    ghost view = { λ n. n.entries.items };

    ghost invariant = { λ n. ArePlaced n.entries.items n.places };
}

/// The entry of that index, from 0.
fn entry_at(entries: &[Entry], place: usize) -> Option<&Entry>
    ensures { option_copied result ≡ slice_get entries.now place }
{
    entries.get(place)
}

impl ProgramNames {
    ghost use Rattle.names_scopes.specs.Placed.{place_in};

    /// No names.
    pub fn new(alloc: Global) -> ProgramNames
        ensures { result ≡ [] }
    {
        ProgramNames {
            entries: Vec::new(alloc),
            places: HashMap::new(alloc),
        }
    }

    /// Adds a name at the end. On a refusal the names are as they were.
    pub fn push(&mut self, item: Entry) -> Result<(), NoMemory>
        ensures pushed { OnOk result (self.new ≡ self.old ++ item ∷ []) }
        ensures kept { OnErr result (self.new ≡ self.old) }
    {
        match self.places.get(&item.name) {
            Some(_) => {
                self.entries.push(item)?;
                Ok(())
            }
            None => self.push_new(item),
        }
    }

    /// Adds a name that does not stand there yet.
    fn push_new(&mut self, item: Entry) -> Result<(), NoMemory>
        requires { place_in self.old item.name ≡ None }
        ensures pushed { OnOk result (self.new ≡ self.old ++ item ∷ []) }
        ensures kept { OnErr result (self.new ≡ self.old) }
    {
        let name = item.name.copy()?;
        let place = self.entries.len();
        self.entries.push(item)?;
        match self.places.insert(name, place) {
            Ok(_) => Ok(()),
            Err(_) => {
                let _ = self.entries.pop();
                Err(AllocError)
            }
        }
    }

    /// An entry that tells what that name means, as the first of that name does.
    pub fn get(&self, name: &Text) -> Option<&Entry>
        ensures { MatchOption result (among self.now name.now ≡ None) (λ e. among self.now name.now ≡ Some e.now.is) }
    {
        match self.places.get(name) {
            Some(place) => entry_at(&self.entries, *place),
            None => None,
        }
    }

    /// The names as a slice.
    pub fn items(&self) -> &[Entry]
        ensures { result.now ≡ self.now }
    {
        &self.entries
    }
}
