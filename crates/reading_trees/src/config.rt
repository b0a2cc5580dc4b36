//! What a configuration gives.

ghost use Rattle.std.specs.Prelude.{◌≡◌, ◌↔◌, ◌<◌, [], ◌∷◌, ◌++◌, length, map, OnOk, OnErr, IsSome, option_copied, option_map, slice_get};
ghost use Rattle.reading_trees.specs.Literals.{lit_of};

use base_core::{Names, NoMemory, Place, Text};
use std::alloc::Global;
use std::marker::Model;

/// A value as a configuration writes it.
#[cycle(literal)]
#[derive(Drop)]
pub enum Literal {
    Number(i64),
    Str(Text),
    Truth(bool),
    /// A model value, by its name.
    Model(Text),
    /// A set, by its members as they are written, in their order.
    Set(Literals),
}

/// Values of a set, seen as the list of them.
#[cycle(literal)]
#[derive(Drop)]
pub struct Literals {
    items: Vec<Literal>,
}

impl Model for Literals {
    ghost use Rattle.std.specs.Prelude.{List, map};
    ghost use Rattle.reading_trees.specs.Lits.{Lit};
    ghost use Rattle.reading_trees.specs.LitCodes.{lits_code};

    ghost Value = { List Lit };

    ghost coded = { lits_code };

    ghost use Rattle.reading_trees.specs.Literals.{lit_of, depth_in};

    ghost view = { λ l. map lit_of l.items.items };

    ghost size = { depth_in };

    ghost use Rattle.reading_trees.specs.Shallower.{shallower};

    ghost size_decreases = { λ a h. shallower a.items.items };
}

impl Literals {
    /// No values.
    pub fn new(alloc: Global) -> Literals
        ensures { result ≡ [] }
    {
        Literals {
            items: Vec::new(alloc),
        }
    }

    /// Adds a value at the end. On a refusal the list is as it was.
    pub fn push(&mut self, item: Literal) -> Result<(), NoMemory>
        ensures pushed { OnOk result (self.new ≡ self.old ++ lit_of item ∷ []) }
        ensures kept { OnErr result (self.new ≡ self.old) }
    {
        self.items.push(item)?;
        Ok(())
    }

    /// How many values there are.
    pub fn len(&self) -> usize
        ensures { result ≡ length self.now }
    {
        self.items.len()
    }

    /// The value of that index, from 0.
    pub fn get(&self, i: usize) -> Option<&Literal>
        ensures item { option_map (λ l. lit_of l.now) result ≡ slice_get self.now i }
        ensures within { IsSome result ↔ (i < length self.now) }
    {
        self.items.get(i)
    }

    /// The values as a slice.
    pub fn items(&self) -> &[Literal]
        ensures { map lit_of result.now ≡ self.now }
    {
        &self.items
    }
}

/// What a configuration gives for a name: its value, or the definition that replaces it, by its name and the place of that name.
#[derive(Drop)]
pub enum Given {
    Constant(Literal),
    Replaced(Text, Place),
}

/// A name, where it stands, and what is given for it.
#[derive(Drop)]
pub struct GivenAt {
    pub name: Text,
    pub at: Place,
    pub given: Given,
}

/// What is given, in text order, seen as the list of it.
#[derive(Drop)]
pub struct Givens {
    items: Vec<GivenAt>,
}

impl Model for Givens {
    ghost use Rattle.std.specs.Prelude.{List};
    ghost use Rattle.reading_trees.specs.declared.config.GivenAt.{GivenAt};
    ghost use Rattle.std.specs.Coded.{codes};
    ghost use Rattle.reading_trees.specs.LitCodes.{lit_code};

    ghost Value = { List GivenAt };

    ghost coded = { Prim.hlevel (codes, lit_code) };

    ghost view = { λ g. g.items.items };
}

impl Givens {
    /// Nothing.
    pub fn new(alloc: Global) -> Givens
        ensures { result ≡ [] }
    {
        Givens {
            items: Vec::new(alloc),
        }
    }

    /// Adds what is given for one more name. On a refusal the list is as it was.
    pub fn push(&mut self, item: GivenAt) -> Result<(), NoMemory>
        ensures pushed { OnOk result (self.new ≡ self.old ++ item ∷ []) }
        ensures kept { OnErr result (self.new ≡ self.old) }
    {
        self.items.push(item)?;
        Ok(())
    }

    /// For how many names something is given.
    pub fn len(&self) -> usize
        ensures { result ≡ length self.now }
    {
        self.items.len()
    }

    /// What is given, of that index, from 0.
    pub fn get(&self, i: usize) -> Option<&GivenAt>
        ensures item { option_copied result ≡ slice_get self.now i }
        ensures within { IsSome result ↔ (i < length self.now) }
    {
        self.items.get(i)
    }

    /// What is given, as a slice.
    pub fn items(&self) -> &[GivenAt]
        ensures { result.now ≡ self.now }
    {
        &self.items
    }
}

/// A configuration.
#[derive(Drop)]
pub struct Config {
    /// The name of its file.
    pub file: Text,
    /// The name behind INIT.
    pub init: Option<Text>,
    /// The name behind NEXT.
    pub next: Option<Text>,
    /// The name behind SPECIFICATION.
    pub specification: Option<Text>,
    /// What is given for names, in text order.
    pub givens: Givens,
    /// What is not checked, in text order: each `INVARIANT` or `PROPERTY` with a name, or
    /// `CHECK_DEADLOCK`.
    pub unchecked: Names,
}
