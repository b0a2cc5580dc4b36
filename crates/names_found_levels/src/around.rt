//! What is known of the names around a place of a tree.

ghost use Rattle.std.specs.Prelude.{◌≡◌, [], ◌∷◌, ◌++◌, length, take, OnOk};
ghost use Rattle.names_found_levels.specs.Found.{first_rises};
ghost use Rattle.names_found_levels.specs.Raised.{bound_by, marked, names_marked, own, told};
ghost use Rattle.names_least_levels.specs.Levels.{mark, names_rise};

use crate::known::KnownNames;
use base_core::{NoMemory, Text};
use names_least_levels::Told;
use reading_trees::Bounds;
use std::alloc::Global;
use std::marker::Model;

/// A name that is bound or defined around a place, and whether it is above level 0.
#[derive(Drop)]
pub struct NameMark {
    pub name: Text,
    pub rises: bool,
}

/// The names that are bound or defined around a place, from the outermost, seen as the list of them.
#[derive(Drop)]
pub struct Around {
    names: Vec<NameMark>,
}

impl Model for Around {
    ghost use Rattle.std.specs.Prelude.{List};
    ghost use Rattle.names_found_levels.specs.declared.around.NameMark.{NameMark};

    ghost Value = { List NameMark };

    ghost view = { λ a. a.names.items };
}

impl Around {
    /// No names.
    pub fn new(alloc: Global) -> Around
        ensures { result ≡ [] }
    {
        Around {
            names: Vec::new(alloc),
        }
    }

    /// How many names there are.
    pub fn len(&self) -> usize
        ensures { result ≡ length self.now }
    {
        self.names.len()
    }

    /// Adds a name with its mark.
    pub fn push(&mut self, name: &Text, rises: bool) -> Result<(), NoMemory>
        ensures { OnOk result (self.new ≡ self.old ++ marked name.now rises ∷ []) }
    {
        let name = name.copy()?;
        self.names.push(NameMark { name, rises })?;
        Ok(())
    }

    /// Adds names that are bound, in their order.
    pub fn push_all(&mut self, names: &[Text]) -> Result<(), NoMemory>
        ensures { OnOk result (self.new ≡ self.old ++ names_marked names.now) }
    {
        for name in names {
            self.push(name, false)?;
        }
        Ok(())
    }

    /// Adds the names that bounds bind.
    pub fn push_bounds(&mut self, bounds: &Bounds) -> Result<(), NoMemory>
        ensures { OnOk result (self.new ≡ self.old ++ bound_by bounds.now) }
    {
        for bound in bounds.items() {
            self.push_all(bound.names.items())?;
        }
        Ok(())
    }

    /// Adds the own name of a definition, in whose body it has level 0.
    pub fn push_own(&mut self, name: &Text) -> Result<(), NoMemory>
        ensures { OnOk result (self.new ≡ self.old ++ own name.now) }
    {
        self.push(name, false)
    }

    /// Lets go of all but the first names, so many of them.
    pub fn cut(&mut self, len: usize)
        ensures { self.new ≡ take len self.old }
    {
        self.names.truncate(len);
    }

    /// The names as a slice.
    pub fn items(&self) -> &[NameMark]
        ensures { result.now ≡ self.now }
    {
        &self.names
    }
}

/// The mark of a definition.
fn mark(marks: &[bool], index: usize) -> bool
    ensures { result ≡ mark marks.now index }
{
    match marks.get(index) {
        Some(mark) => *mark,
        None => false,
    }
}

/// Whether what is told of a name, if it is one of the program, is above level 0.
fn told_rises(marks: &[bool], told: Option<Told>) -> bool
    ensures { result ≡ first_rises marks.now told }
{
    match told {
        Some(Told::Above) => true,
        Some(Told::Constant) => false,
        Some(Told::OfDefinition(index)) => mark(marks, index),
        None => false,
    }
}

/// Whether a name of the program is above level 0, where its definitions have these marks.
fn in_program(names: &KnownNames, marks: &[bool], name: &Text) -> bool
    ensures { result ≡ names_rise names.now marks.now name.now }
{
    told_rises(marks, names.get(name))
}

/// Whether a name is above level 0 at a place: the innermost of that name counts.
pub fn told(names: &KnownNames, marks: &[bool], around: &Around, name: &Text) -> bool
    ensures { result ≡ told (names_rise names.now marks.now) around.now name.now }
{
    let mut rises = in_program(names, marks, name);
    for known in around.items() {
        if known.name == *name {
            rises = known.rises;
        }
    }
    rises
}
