//! Equal trees of their own.

ghost use Rattle.std.specs.Prelude.{◌≡◌, IfOk};

use crate::bound_names::BoundNames;
use crate::making::made;
use crate::renaming::Renaming;
use base_core::NoMemory;
use reading_trees::Expr;
use std::alloc::Global;

/// An equal tree of its own.
#[tactic(auto, using(crate::proofs::Keeping::keeps))]
pub fn copy_tree(alloc: Global, tree: &Expr) -> Result<Expr, NoMemory>
    ensures { IfOk result (λ copy. copy ≡ tree.now) }
{
    let mut bound = BoundNames::new(alloc);
    let copy = made(alloc, &Renaming::Nothing, &mut bound, tree)?;
    Ok(copy)
}
