//! Which trees say fairness.

ghost use Rattle.std.specs.Prelude.{◌≡◌, IfOk};
ghost use Rattle.std.specs.List.{list_all};
ghost use Rattle.names_specification.specs.Fair.{conjuncts, is_fair};
ghost use Rattle.names_specification.specs.Standing.{AreDefinitions};

use crate::conjuncts::conjuncts;
use crate::named::{Named, operator_kept};
use base_core::NoMemory;
use reading_trees::{Bullet, Expr, InfixOperator, Node, Quantifier};
use std::alloc::Global;

/// Whether the tree says fairness, within so many levels.
#[cycle(fair)]
#[tactic(auto, using(crate::proofs::Levels::fair_by_row, crate::proofs::Levels::fair_at_none))]
pub(crate) fn is_fair(
    alloc: Global,
    named: Named<'_>,
    levels: u32,
    tree: &Expr,
) -> Result<bool, NoMemory>
    requires { AreDefinitions named }
    ensures { IfOk result (λ b. b ≡ is_fair levels named.entry.program.now named.entry.config.now tree.now) }
{
    if levels == 0 {
        return Ok(false);
    }
    match &*tree.node {
        Node::Fairness(_, _) => Ok(true),
        Node::Quantified(Quantifier::ForAll, _, body) => is_fair(alloc, named, levels - 1, body),
        Node::Infix(InfixOperator::And, _, _) => are_fair(alloc, named, levels - 1, tree),
        Node::Junction(Bullet::And, _) => are_fair(alloc, named, levels - 1, tree),
        Node::Name(name) => match operator_kept(named, name) {
            Some(definition) => is_fair(alloc, named, levels - 1, &definition.body),
            None => Ok(false),
        },
        _ => Ok(false),
    }
}

/// Whether each conjunct of the tree does.
#[cycle(fair)]
fn are_fair(alloc: Global, named: Named<'_>, levels: u32, tree: &Expr) -> Result<bool, NoMemory>
    requires { AreDefinitions named }
    ensures { IfOk result (λ b. b ≡ list_all (is_fair levels named.entry.program.now named.entry.config.now) (conjuncts tree.now)) }
{
    let parts = conjuncts(alloc, tree)?;
    for part in &parts {
        if !is_fair(alloc, named, levels, part)? {
            return Ok(false);
        }
    }
    Ok(true)
}
