ghost use Rattle.std.specs.Prelude.{◌≡◌, ◌↔◌, ◌<◌, ◌≤◌, ℕ, [], ◌∷◌, ◌++◌, length, MatchOption, OnOk, OnErr, IsSome, Some, option_copied, set, slice_get};
ghost use Rattle.names_terms.specs.Named.{IsNamed, IsVariable};

use crate::ids::DefId;
use crate::operator::Operator;
use crate::term::{Term, Terms};
use base_core::{Names, NoMemory};
use states_core::VarId;
use std::alloc::Global;
use std::marker::Model;

/// The definitions of a specification by their numbers, seen as the list of them.
#[derive(Drop)]
pub struct Operators {
    items: Vec<Operator>,
}

impl Model for Operators {
    ghost use Rattle.std.specs.Prelude.{List};
    ghost use Rattle.names_terms.specs.declared.operator.Operator.{Operator};
    ghost use Rattle.names_terms.specs.OperatorsCode.{operators_code};

    ghost Value = { List Operator };

    ghost coded = { operators_code };

    ghost view = { λ o. o.items.items };
}

impl Operators {
    ghost use Rattle.names_terms.specs.declared.operator.Operator.{Operator};

    /// No definitions.
    pub fn new(alloc: Global) -> Operators
        ensures { result ≡ [] }
    {
        Operators {
            items: Vec::new(alloc),
        }
    }

    /// Adds a definition at the end. On a refusal the list is as it was.
    pub fn push(&mut self, item: Operator) -> Result<(), NoMemory>
        ensures pushed { OnOk result (self.new ≡ self.old ++ item ∷ []) }
        ensures kept { OnErr result (self.new ≡ self.old) }
    {
        self.items.push(item)?;
        Ok(())
    }

    /// How many definitions there are.
    pub fn len(&self) -> usize
        ensures { result ≡ length self.now }
    {
        self.items.len()
    }

    /// The definition of that number.
    pub fn get(&self, i: usize) -> Option<&Operator>
        ensures item { option_copied result ≡ slice_get self.now i }
        ensures within { IsSome result ↔ (i < length self.now) }
    {
        self.items.get(i)
    }

    /// Gives the definition of that number another body.
    pub fn set_body(&mut self, i: usize, body: Term)
        requires within { i < length self.old }
        ensures { (o : Operator) → slice_get self.old i ≡ Some o → self.new ≡ set self.old i (record o { body = body }) }
    {
        self.items[i].body = body;
    }

    /// The definitions as a slice.
    pub fn items(&self) -> &[Operator]
        ensures { result.now ≡ self.now }
    {
        &self.items
    }
}

/// A specification with every name resolved.
///
/// `files` are the names of the files that places speak of; `unchecked` has, for each thing that the configuration asks for and that
/// is not checked, the words that the report names it by.
#[derive(Drop)]
pub struct Spec {
    pub files: Names,
    pub variables: Names,
    pub operators: Operators,
    pub init: Term,
    pub next: Term,
    pub silent: Option<DefId>,
    pub assumes: Terms,
    pub unchecked: Names,
}

impl Spec {
    /// The definition of that name, which is not one of a LET. A specification has no two of one name.
    pub fn operator(&self, name: &str) -> Option<DefId>
        ensures { MatchOption result ((k : ℕ) → ¬ IsNamed self.now.operators name.now k) (λ d. IsNamed self.now.operators name.now d.0) }
    {
        if name.is_empty() {
            return None;
        }
        let operators = self.operators.items();
        for index in 0..operators.len() {
            if operators[index].name.as_str() == name {
                return Some(DefId(index));
            }
        }
        None
    }

    /// The variable of that name.
    pub fn variable(&self, name: &str) -> Option<VarId>
        requires few { length self.now.variables ≤ 64 }
        ensures { MatchOption result ((k : ℕ) → ¬ IsVariable self.now.variables name.now k) (λ v. IsVariable self.now.variables name.now v.0) }
    {
        let variables = self.variables.items();
        for index in 0..variables.len() {
            if variables[index].as_str() == name {
                return Some(VarId(index as u16));
            }
        }
        None
    }
}
