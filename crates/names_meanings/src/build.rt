//! Meanings that are more than a node of their parts.

ghost use Rattle.std.specs.Prelude.{◌≡◌, IfOk, OnOk};
ghost use Rattle.names_terms.specs.Terms.{Operands as OperandTerms, Known, MoreTerms};
ghost use Rattle.values_core.specs.Data.{string};
ghost use Rattle.names_terms.specs.TermViews.{node_view, operands_from};
ghost use Rattle.names_meanings.specs.Means.{builtin_set, junction, chain, operands_list};

use base_core::{NoMemory, Text};
use names_terms::{NamedSet, Operand, Operands, Term, TermNode, Terms};
use reading_trees::{BuiltinSet, Bullet, InfixOperator};
use std::alloc::Global;
use values_core::Value;

pub fn known_text(text: &Text) -> Result<TermNode, NoMemory>
    ensures { IfOk result (λ n. node_view n ≡ Known (string text.now)) }
{
    Ok(TermNode::Known(Value::string(text.copy()?)))
}

pub fn builtin_set(set: BuiltinSet) -> NamedSet
    ensures { result ≡ builtin_set set }
{
    match set {
        BuiltinSet::Booleans => NamedSet::Booleans,
        BuiltinSet::Strings => NamedSet::Strings,
    }
}

pub fn junction(bullet: Bullet, terms: Terms) -> TermNode
    ensures { node_view result ≡ junction bullet terms }
{
    match bullet {
        Bullet::And => TermNode::All(terms),
        Bullet::Or => TermNode::Any(terms),
    }
}

/// Adds operands behind others to a list of terms.
fn add_others(terms: &mut Terms, others: Vec<Operand>) -> Result<(), NoMemory>
    ensures { (so_far : OperandTerms) → terms.old ≡ operands_list so_far → OnOk result (terms.new ≡ operands_list (operands_from so_far others.items)) }
{
    for operand in others {
        terms.push(operand.value)?;
    }
    Ok(())
}

/// Operands as a list of terms.
fn operands_list(alloc: Global, operands: Operands) -> Result<Terms, NoMemory>
    ensures { IfOk result (λ ts. ts ≡ operands_list operands) }
{
    let (first, others) = operands.into_parts();
    let mut terms = Terms::new(alloc);
    terms.push(first)?;
    add_others(&mut terms, others)?;
    Ok(terms)
}

/// The terms of a chain.
fn chained(alloc: Global, operands: Operands, last: Term) -> Result<Terms, NoMemory>
    ensures { IfOk result (λ ts. ts ≡ MoreTerms (operands_list operands) last) }
{
    let mut terms = operands_list(alloc, operands)?;
    terms.push(last)?;
    Ok(terms)
}

/// A chain of one operator.
pub fn chain(
    alloc: Global,
    operator: InfixOperator,
    operands: Operands,
    last: Term,
) -> Result<TermNode, NoMemory>
    ensures { IfOk result (λ n. node_view n ≡ chain operator operands last) }
{
    match operator {
        InfixOperator::And => Ok(TermNode::All(chained(alloc, operands, last)?)),
        InfixOperator::Or => Ok(TermNode::Any(chained(alloc, operands, last)?)),
        _ => Ok(TermNode::Infix(operator, operands, last)),
    }
}
