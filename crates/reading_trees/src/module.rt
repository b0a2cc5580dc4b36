//! Syntax trees of modules.

ghost use Rattle.std.specs.Prelude.{◌≡◌, ◌↔◌, ◌<◌, [], ◌∷◌, ◌++◌, length, OnOk, OnErr, IsSome, option_copied, option_to_list, slice_get};

use crate::expr::{Definition, Expr};
use base_core::{Names, NoMemory, Place, Text};
use std::alloc::Global;
use std::marker::Model;

/// A variable or constant that a module declares, and the place of its name.
#[derive(Drop)]
pub struct Declared {
    pub name: Text,
    pub at: Place,
}

/// A list of declared names, seen as the list itself.
#[derive(Drop)]
pub struct DeclaredNames {
    items: Vec<Declared>,
}

impl Model for DeclaredNames {
    ghost use Rattle.std.specs.Prelude.{List};
    ghost use Rattle.reading_trees.specs.declared.module.Declared.{Declared};

    ghost Value = { List Declared };

    ghost view = { λ n. n.items.items };
}

impl DeclaredNames {
    /// No names.
    pub fn new(alloc: Global) -> DeclaredNames
        ensures { result ≡ [] }
    {
        DeclaredNames {
            items: Vec::new(alloc),
        }
    }

    /// Adds a name at the end. On a refusal the list is as it was.
    pub fn push(&mut self, item: Declared) -> Result<(), NoMemory>
        ensures pushed { OnOk result (self.new ≡ self.old ++ item ∷ []) }
        ensures kept { OnErr result (self.new ≡ self.old) }
    {
        self.items.push(item)?;
        Ok(())
    }

    /// How many names there are.
    pub fn len(&self) -> usize
        ensures { result ≡ length self.now }
    {
        self.items.len()
    }

    /// The declared name of that index, from 0.
    pub fn get(&self, i: usize) -> Option<&Declared>
        ensures item { option_copied result ≡ slice_get self.now i }
        ensures within { IsSome result ↔ (i < length self.now) }
    {
        self.items.get(i)
    }

    /// The declared names as a slice.
    pub fn items(&self) -> &[Declared]
        ensures { result.now ≡ self.now }
    {
        &self.items
    }
}

/// What a module declares of an operator before it is defined, as `N` or `N(_, _)`: its name, the place of that, and how many
/// parameters it has.
#[derive(Drop)]
pub struct DeclaredOperator {
    pub name: Text,
    pub at: Place,
    pub parameters: usize,
}

/// A list of declared operators, seen as the list itself.
#[derive(Drop)]
pub struct DeclaredOperators {
    items: Vec<DeclaredOperator>,
}

impl Model for DeclaredOperators {
    ghost use Rattle.std.specs.Prelude.{List};
    ghost use Rattle.reading_trees.specs.declared.module.DeclaredOperator.{DeclaredOperator};

    ghost Value = { List DeclaredOperator };

    ghost view = { λ n. n.items.items };
}

impl DeclaredOperators {
    /// No operators.
    pub fn new(alloc: Global) -> DeclaredOperators
        ensures { result ≡ [] }
    {
        DeclaredOperators {
            items: Vec::new(alloc),
        }
    }

    /// Adds an operator at the end. On a refusal the list is as it was.
    pub fn push(&mut self, item: DeclaredOperator) -> Result<(), NoMemory>
        ensures pushed { OnOk result (self.new ≡ self.old ++ item ∷ []) }
        ensures kept { OnErr result (self.new ≡ self.old) }
    {
        self.items.push(item)?;
        Ok(())
    }

    /// The declared operators as a slice.
    pub fn items(&self) -> &[DeclaredOperator]
        ensures { result.now ≡ self.now }
    {
        &self.items
    }
}

/// What WITH gives for one name of the module of an instance: the name and the place of it, and what stands for it.
#[derive(Drop)]
pub struct With {
    pub name: Text,
    pub at: Place,
    pub by: Expr,
}

/// What WITH gives, seen as the list itself.
#[derive(Drop)]
pub struct Withs {
    items: Vec<With>,
}

impl Model for Withs {
    ghost use Rattle.std.specs.Prelude.{List};
    ghost use Rattle.reading_trees.specs.declared.module.With.{With};

    ghost Value = { List With };

    ghost use Rattle.std.specs.Coded.{codes};
    ghost use Rattle.reading_trees.specs.TreeCodes.{tree_code};

    ghost coded = { Prim.hlevel (codes, tree_code) };

    ghost view = { λ w. w.items.items };
}

impl Withs {
    /// Nothing.
    pub fn new(alloc: Global) -> Withs
        ensures { result ≡ [] }
    {
        Withs {
            items: Vec::new(alloc),
        }
    }

    /// Adds one at the end. On a refusal the list is as it was.
    pub fn push(&mut self, item: With) -> Result<(), NoMemory>
        ensures pushed { OnOk result (self.new ≡ self.old ++ item ∷ []) }
        ensures kept { OnErr result (self.new ≡ self.old) }
    {
        self.items.push(item)?;
        Ok(())
    }

    /// How many names have something.
    pub fn len(&self) -> usize
        ensures { result ≡ length self.now }
    {
        self.items.len()
    }

    /// What WITH gives, as a slice.
    pub fn items(&self) -> &[With]
        ensures { result.now ≡ self.now }
    {
        &self.items
    }
}

/// An instance of a module, as `I == INSTANCE M WITH p <- e`: its name and the place of that, the name of the module, and what WITH gives.
#[derive(Drop)]
pub struct Made {
    pub name: Text,
    pub at: Place,
    pub module_name: Text,
    pub withs: Withs,
}

/// A unit of a module.
#[derive(Drop)]
pub enum Unit {
    /// `VARIABLES x, y`
    Variables(DeclaredNames),
    /// `CONSTANTS c, d`
    Constants(DeclaredNames),
    /// `RECURSIVE F(_), g`: operators whose definitions may use them
    Recursive(DeclaredOperators),
    Define(Definition),
    /// `I == INSTANCE M`
    Instance(Made),
    /// What is assumed. A name before it is passed over.
    Assume(Expr),
    /// A theorem or dashes.
    Passed,
}

/// A list of units, seen as the list itself.
#[derive(Drop)]
pub struct Units {
    items: Vec<Unit>,
}

impl Model for Units {
    ghost use Rattle.std.specs.Prelude.{List};
    ghost use Rattle.reading_trees.specs.declared.module.Unit.{Unit as ModuleUnit};

    ghost Value = { List ModuleUnit };

    ghost use Rattle.std.specs.Coded.{codes};
    ghost use Rattle.reading_trees.specs.TreeCodes.{tree_code};

    ghost coded = { Prim.hlevel (codes, tree_code) };

    ghost view = { λ u. u.items.items };
}

impl Units {
    /// No units.
    pub fn new(alloc: Global) -> Units
        ensures { result ≡ [] }
    {
        Units {
            items: Vec::new(alloc),
        }
    }

    /// Adds a unit at the end. On a refusal the list is as it was.
    pub fn push(&mut self, item: Unit) -> Result<(), NoMemory>
        ensures pushed { OnOk result (self.new ≡ self.old ++ item ∷ []) }
        ensures kept { OnErr result (self.new ≡ self.old) }
    {
        self.items.push(item)?;
        Ok(())
    }

    /// Adds the units of another list behind these. On a refusal the list is as it was.
    pub fn append(&mut self, mut more: Units) -> Result<(), NoMemory>
        ensures appended { OnOk result (self.new ≡ self.old ++ more) }
        ensures kept { OnErr result (self.new ≡ self.old) }
    {
        self.items.append(&mut more.items)?;
        Ok(())
    }

    /// Takes the last unit off, or nothing where there is none.
    pub fn pop(&mut self) -> Option<Unit>
        ensures taken { self.old ≡ self.new ++ option_to_list result }
        ensures variant { IsSome result ↔ (0 < length self.old) }
    {
        self.items.pop()
    }

    /// How many units there are.
    pub fn len(&self) -> usize
        ensures { result ≡ length self.now }
    {
        self.items.len()
    }

    /// The unit of that index, from 0.
    pub fn get(&self, i: usize) -> Option<&Unit>
        ensures item { option_copied result ≡ slice_get self.now i }
        ensures within { IsSome result ↔ (i < length self.now) }
    {
        self.items.get(i)
    }

    /// The units as a slice.
    pub fn items(&self) -> &[Unit]
        ensures { result.now ≡ self.now }
    {
        &self.items
    }
}

/// A module: its name and the place of it, the modules that it extends, and its units.
#[derive(Drop)]
pub struct Module {
    pub name: Text,
    pub at: Place,
    pub extends: Names,
    pub units: Units,
}

/// A program: the files that its modules were read from, in the order of their reading, the units of all modules, those
/// of an extended module before those of the module that extends it, and the standard modules that were extended.
#[derive(Drop)]
pub struct Program {
    pub files: Names,
    pub units: Units,
    pub standard: Names,
}

/// An instance among the units of a program: its name and the place of that, and the program of its module. What WITH gives stands in the unit.
#[derive(Drop)]
pub struct Instance {
    pub name: Text,
    pub at: Place,
    pub program: Program,
}

/// A program as it is read: its files and standard modules are those of its instances too, and the instances among its units stand beside it, in
/// their order.
#[derive(Drop)]
pub struct WholeProgram {
    pub program: Program,
    pub instances: Instances,
}

/// A list of instances, seen as the list itself.
#[derive(Drop)]
pub struct Instances {
    items: Vec<Instance>,
}

impl Model for Instances {
    ghost use Rattle.std.specs.Prelude.{List};
    ghost use Rattle.reading_trees.specs.declared.module.Instance.{Instance};

    ghost Value = { List Instance };

    ghost use Rattle.std.specs.Coded.{codes};
    ghost use Rattle.reading_trees.specs.TreeCodes.{tree_code};

    ghost coded = { Prim.hlevel (codes, tree_code) };

    ghost view = { λ n. n.items.items };
}

impl Instances {
    /// No instances.
    pub fn new(alloc: Global) -> Instances
        ensures { result ≡ [] }
    {
        Instances {
            items: Vec::new(alloc),
        }
    }

    /// Adds an instance at the end. On a refusal the list is as it was.
    pub fn push(&mut self, item: Instance) -> Result<(), NoMemory>
        ensures pushed { OnOk result (self.new ≡ self.old ++ item ∷ []) }
        ensures kept { OnErr result (self.new ≡ self.old) }
    {
        self.items.push(item)?;
        Ok(())
    }

    /// The instances as a slice.
    pub fn items(&self) -> &[Instance]
        ensures { result.now ≡ self.now }
    {
        &self.items
    }
}
