//! What stands for the constants and variables of a module.

ghost use Rattle.std.specs.Prelude.{◌≡◌, [], ◌∷◌, ◌++◌, OnErr, OnOk, option_copied};
ghost use Rattle.names_instances.specs.Instances.{substitute_for};

use base_core::{NoMemory, Text};
use reading_trees::Expr;
use std::alloc::Global;
use std::marker::Model;

/// An expression that stands for a constant or a variable of a module.
#[derive(Drop)]
pub struct Substitute {
    pub name: Text,
    pub by: Expr,
}

/// A list of substitutes, seen as the list itself. Of equal names the first counts.
#[derive(Drop)]
pub struct Substitutes {
    items: Vec<Substitute>,
}

impl Model for Substitutes {
    ghost use Rattle.std.specs.Prelude.{List};
    ghost use Rattle.names_instances.specs.declared.substitutes.Substitute.{Substitute};
    ghost use Rattle.std.specs.Coded.{codes};
    ghost use Rattle.reading_trees.specs.TreeCodes.{tree_code};

    ghost Value = { List Substitute };

    ghost coded = { Prim.hlevel (codes, tree_code) };

    ghost view = { λ s. s.items.items };
}

impl Substitutes {
    /// No substitutes.
    pub fn new(alloc: Global) -> Substitutes
        ensures { result ≡ [] }
    {
        Substitutes {
            items: Vec::new(alloc),
        }
    }

    /// Adds one at the end. On a refusal the list is as it was.
    pub fn push(&mut self, item: Substitute) -> Result<(), NoMemory>
        ensures pushed { OnOk result (self.new ≡ self.old ++ item ∷ []) }
        ensures kept { OnErr result (self.new ≡ self.old) }
    {
        self.items.push(item)?;
        Ok(())
    }

    /// The expression that stands for a name, if there is one.
    pub fn get(&self, name: &Text) -> Option<&Expr>
        ensures { option_copied result ≡ substitute_for self.now name.now }
    {
        for item in &self.items {
            if item.name == *name {
                return Some(&item.by);
            }
        }
        None
    }
}
