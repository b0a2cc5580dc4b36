//! Notes of modules.

ghost use Rattle.std.specs.Prelude.{◌≡◌, [], ◌++◌, OnOk, map};
ghost use Rattle.reading_modules.specs.Flattened.{noted};

use base_core::NoMemory;
use std::alloc::Global;
use std::marker::Model;

/// A note, with the number of the file of its module.
#[derive(Drop)]
pub struct Noted<N> {
    pub file: u32,
    pub note: N,
}

/// The notes of several modules, seen as the list itself.
#[derive(Drop)]
pub struct Notes<N> {
    items: Vec<Noted<N>>,
}

impl<N> Model for Notes<N> {
    ghost use Rattle.std.specs.Prelude.{List};
    ghost use Rattle.reading_modules.specs.declared.notes.Noted.{Noted};

    ghost Value = { List (Noted N) };

    ghost view = { λ n. n.items.items };
}

impl<N: Drop> Notes<N> {
    /// No notes.
    pub fn new(alloc: Global) -> Notes<N>
        ensures { result ≡ [] }
    {
        Notes {
            items: Vec::new(alloc),
        }
    }

    /// Adds the notes of the module of that file.
    pub fn add(&mut self, file: u32, notes: Vec<N>) -> Result<(), NoMemory>
        ensures { OnOk result (self.new ≡ self.old ++ noted file notes.items) }
    {
        for note in notes {
            self.items.push(Noted { file, note })?;
        }
        Ok(())
    }

    /// The notes as a slice.
    pub fn items(&self) -> &[Noted<N>]
        ensures { result.now ≡ self.now }
    {
        &self.items
    }
}
