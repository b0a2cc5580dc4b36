//! Operands of a chain behind the first.

ghost use Rattle.std.specs.Prelude.{◌≡◌};
ghost use Rattle.reading_trees.specs.TreeViews.{operands_of};
ghost use Rattle.names_scopes.specs.FirstOperands.{first_of};

use reading_trees::{Operand, Operands};

/// The operands behind the first.
#[tactic(auto, using(crate::proofs::FirstLemmas::others_are))]
pub fn others_of(operands: &Operands) -> &[Operand]
    ensures { operands_of (first_of operands.now) result.now ≡ operands.now }
{
    operands.parts().1
}
