//! The operands of a chain of infix operators.

ghost use Rattle.std.specs.Prelude.{◌≡◌, ◌↔◌, ◌<◌, length, IfOk, OnErr, OnOk, IsSome, option_copied, slice_get};
ghost use Rattle.reading_trees.specs.TreeLists.{operands_list};
ghost use Rattle.reading_trees.specs.Trees.{First, Next};
ghost use Rattle.reading_trees.specs.TreeViews.{operands_of};

use crate::expr::{Expr, Operand, Operands};
use base_core::NoMemory;
use std::alloc::Global;

impl Operands {
    /// One operand.
    pub fn new(alloc: Global, first: Expr) -> Result<Operands, NoMemory>
        ensures { IfOk result (λ o. o ≡ First first) }
    {
        Ok(Operands {
            first: Box::new(alloc, first)?,
            others: Vec::new(alloc),
        })
    }

    /// Adds an operand behind the operator of that place. On a refusal the list is as it was.
    pub fn push(&mut self, item: Operand) -> Result<(), NoMemory>
        ensures pushed { OnOk result (self.new ≡ Next self.old item.at item.value) }
        ensures kept { OnErr result (self.new ≡ self.old) }
    {
        self.others.push(item)?;
        Ok(())
    }

    /// The operands as they are: the first, and those behind it.
    pub fn from_parts(
        alloc: Global,
        first: Expr,
        others: Vec<Operand>,
    ) -> Result<Operands, NoMemory>
        ensures { IfOk result (λ o. o ≡ operands_of first others.items) }
    {
        Ok(Operands {
            first: Box::new(alloc, first)?,
            others,
        })
    }

    /// The first operand, and those behind it.
    pub fn into_parts(self) -> (Expr, Vec<Operand>)
        ensures { operands_of result.0 result.1.items ≡ self }
    {
        let Operands { first, others } = self;
        (Box::into_inner(first), others)
    }

    /// How many operands there are.
    pub fn len(&self) -> usize
        ensures { result ≡ length (operands_list self.now) }
    {
        self.others.len() + 1
    }

    /// The operand of that index, from 0.
    pub fn get(&self, i: usize) -> Option<&Expr>
        ensures item { option_copied result ≡ slice_get (operands_list self.now) i }
        ensures within { IsSome result ↔ (i < length (operands_list self.now)) }
    {
        if i == 0 {
            return Some(&self.first);
        }
        match self.others.get(i - 1) {
            Some(other) => Some(&other.value),
            None => None,
        }
    }

    /// The first operand, and those behind it.
    pub fn parts(&self) -> (&Expr, &[Operand])
        ensures { operands_of result.0.now result.1.now ≡ self.now }
    {
        (&self.first, &self.others)
    }
}
