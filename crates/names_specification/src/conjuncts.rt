//! The conjuncts of a tree.

ghost use Rattle.std.specs.Prelude.{◌≡◌, ◌++◌, IfOk, OnOk, map};
ghost use Rattle.names_specification.specs.Fair.{conjuncts};
ghost use Rattle.reading_trees.specs.TreeLists.{operands_list, trees_list};

use base_core::NoMemory;
use reading_trees::{Bullet, Expr, Exprs, InfixOperator, Node, Operands};
use std::alloc::Global;

/// The conjuncts of a chain or a list, and else the tree itself.
pub(crate) fn conjuncts(alloc: Global, tree: &Expr) -> Result<Vec<&Expr>, NoMemory>
    ensures { IfOk result (λ es. map (λ e. e.now) es.items ≡ conjuncts tree.now) }
{
    let mut found = Vec::new(alloc);
    match &*tree.node {
        Node::Infix(InfixOperator::And, operands, last) => {
            add_operands(&mut found, operands)?;
            found.push(last)?;
        }
        Node::Junction(Bullet::And, items) => add_all(&mut found, items)?,
        _ => found.push(tree)?,
    }
    Ok(found)
}

/// Adds the trees behind others.
#[tactic(auto, using(crate::proofs::Listed::trees_listed))]
fn add_all<'a>(found: &mut Vec<&'a Expr>, trees: &'a Exprs) -> Result<(), NoMemory>
    ensures { OnOk result (map (λ e. e.now) found.new.items ≡ map (λ e. e.now) found.old.items ++ trees_list trees.now) }
{
    for tree in trees.items() {
        found.push(tree)?;
    }
    Ok(())
}

/// Adds the operands behind other trees.
#[tactic(auto, using(crate::proofs::Listed::operands_listed))]
fn add_operands<'a>(found: &mut Vec<&'a Expr>, operands: &'a Operands) -> Result<(), NoMemory>
    ensures { OnOk result (map (λ e. e.now) found.new.items ≡ map (λ e. e.now) found.old.items ++ operands_list operands.now) }
{
    let (first, others) = operands.parts();
    found.push(first)?;
    for operand in others {
        found.push(&operand.value)?;
    }
    Ok(())
}
