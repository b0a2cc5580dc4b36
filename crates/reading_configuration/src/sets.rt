//! The sets whose braces are open.

ghost use Rattle.std.specs.Prelude.{◌≡◌, [], ◌∷◌, length, OnOk, MatchOption};

use reading_trees::Literals;
use std::alloc::{AllocError, Global};
use std::marker::Model;

/// The members so far of each open set, seen as their list from the innermost outwards.
#[derive(Drop)]
pub(crate) struct Sets {
    items: Vec<Literals>,
}

impl Model for Sets {
    ghost use Rattle.std.specs.Prelude.{List, reverse};
    ghost use Rattle.std.specs.Coded.{coded_list};
    ghost use Rattle.reading_trees.specs.Lits.{Lit};
    ghost use Rattle.reading_trees.specs.LitCodes.{lits_code};

    ghost Value = { List (List Lit) };

    ghost coded = { coded_list lits_code };

    ghost view = { λ s. reverse s.items.items };
}

impl Sets {
    /// No open set.
    pub(crate) fn new(alloc: Global) -> Sets
        ensures { result ≡ [] }
    {
        Sets {
            items: Vec::new(alloc),
        }
    }

    /// Opens a set that has these members so far.
    pub(crate) fn push(&mut self, set: Literals) -> Result<(), AllocError>
        ensures { OnOk result (self.new ≡ set ∷ self.old) }
    {
        self.items.push(set)?;
        Ok(())
    }

    /// Takes the innermost open set out.
    pub(crate) fn pop(&mut self) -> Option<Literals>
        ensures { MatchOption result (self.old ≡ []) (λ set. self.old ≡ set ∷ self.new) }
    {
        self.items.pop()
    }

    /// How many sets are open.
    pub(crate) fn len(&self) -> usize
        ensures { result ≡ length self.now }
    {
        self.items.len()
    }
}
