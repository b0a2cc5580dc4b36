//! A name and `\in` at the beginning of braces or brackets, once they are known to be operand and operator.

ghost use Rattle.reading_open_rows.specs.Does.{joined_view, with_others};
ghost use Rattle.reading_machine.specs.Machine.{Joins, first_place, join, joins_in};
ghost use Rattle.std.specs.Prelude.{◌≡◌, IfOk};
ghost use Rattle.reading_trees.specs.Grammar.{begins_member, first_begins, is_member, is_name};
ghost use Rattle.reading_trees.specs.Trees.{First, Infix};

use crate::infix::infix_above;
use crate::stepped::Joined;
use base_core::{NoMemory, Place};
use reading_trees::{Expr, InfixOperator, Node, Operand, Operands};
use std::alloc::Global;

fn is_member(o: InfixOperator) -> bool
    ensures { result ≡ is_member o }
{
    match o {
        InfixOperator::Member => true,
        _ => false,
    }
}

fn is_name(e: &Expr) -> bool
    ensures { result ≡ is_name e.now }
{
    match &*e.node {
        Node::Name(_) => true,
        _ => false,
    }
}

/// Whether the text of an expression begins with a name and `\in`.
pub fn begins_member(e: &Expr) -> bool
    ensures { result ≡ begins_member e.now }
{
    match &*e.node {
        Node::Infix(o, operands, _) => {
            let (first, _others) = operands.parts();
            if is_member(*o) && is_name(first) {
                return true;
            }
            begins_member(first)
        }
        _ => false,
    }
}

/// The place of the first operator of a chain, whose last has this place.
fn first_place(operands: &Operands, at: Place) -> Place
    ensures { result ≡ first_place operands.now at }
{
    let (_first, others) = operands.parts();
    match others.first() {
        Some(operand) => operand.at,
        None => at,
    }
}

/// The operands and the operator `\in` of a name before a whole expression.
fn join_whole(alloc: Global, name: Expr, q: Place, e: Expr) -> Result<Joined, NoMemory>
    ensures { IfOk result (λ j. joined_view j ≡ Joins (Infix q InfixOperator.Member (First name) e)) }
{
    let operands = Operands::new(alloc, name)?;
    let node = Node::Infix(InfixOperator::Member, operands, e);
    Ok(Joined::Joins(Expr::new(alloc, q, node)?))
}

/// A chain again, with what its first operand was joined to.
fn rejoin(
    alloc: Global,
    chain: (Place, InfixOperator, Expr),
    joined: Joined,
    others: Vec<Operand>,
) -> Result<Joined, NoMemory>
    ensures { IfOk result (λ j. joined_view j ≡ joins_in chain.0 chain.1 chain.2 (with_others (joined_view joined) others.items)) }
{
    let (at, o, last) = chain;
    match joined {
        Joined::Joins(first) => {
            let operands = Operands::from_parts(alloc, first, others)?;
            let node = Node::Infix(o, operands, last);
            Ok(Joined::Joins(Expr::new(alloc, at, node)?))
        }
        Joined::Meets(p) => Ok(Joined::Meets(p)),
    }
}

/// A name and `\in` before an expression: on its left edge they are the first operand of the first operator that lies below `\in`.
pub fn join(alloc: Global, e: Expr, name: Expr, q: Place) -> Result<Joined, NoMemory>
    ensures { IfOk result (λ j. joined_view j ≡ join name q e) }
{
    let (at, node) = e.into_parts();
    match node {
        Node::Infix(o, operands, last) => {
            if infix_above(o, InfixOperator::Member) {
                let node = Node::Infix(o, operands, last);
                let e = Expr::new(alloc, at, node)?;
                return join_whole(alloc, name, q, e);
            }
            if !infix_above(InfixOperator::Member, o) {
                return Ok(Joined::Meets(first_place(&operands, at)));
            }
            let (first, others) = operands.into_parts();
            let joined = join(alloc, first, name, q)?;
            rejoin(alloc, (at, o, last), joined, others)
        }
        other => {
            let e = Expr::new(alloc, at, other)?;
            join_whole(alloc, name, q, e)
        }
    }
}
