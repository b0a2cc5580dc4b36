//! Kinds of terms, as the walks ask for them.

ghost use Rattle.names_terms.specs.Terms.{Prefix};
ghost use Rattle.names_terms.specs.TermViews.{node_view};
ghost use Rattle.actions_early_reads.specs.Opened.{IsRowOf};
ghost use Rattle.actions_early_reads.specs.Shapes.{IsShape};

use names_terms::{Changes, Step, Steps, Term, TermNode, Terms};
use reading_trees::PrefixOperator;

/// A term that has reads of its own, or that is walked part by part.
pub enum Row<'a> {
    Variable(u16),
    Use(usize, &'a Terms),
    Postfix(&'a Term, &'a Steps, &'a Step),
    Unchanged(&'a Term),
    Except(&'a Term, &'a Changes),
    BoxAction(&'a Term, &'a Term),
    AngleAction(&'a Term, &'a Term),
    Plain,
}

fn prefix_row<'a>(operator: PrefixOperator, term: &'a Term) -> Row<'a>
    ensures { IsRowOf (Prefix operator term.now) result }
{
    match operator {
        PrefixOperator::Unchanged => Row::Unchanged(term),
        PrefixOperator::Not
        | PrefixOperator::Enabled
        | PrefixOperator::Always
        | PrefixOperator::Eventually
        | PrefixOperator::Powerset
        | PrefixOperator::BigUnion
        | PrefixOperator::Domain
        | PrefixOperator::Negate => Row::Plain,
    }
}

pub fn row_of(node: &TermNode) -> Row<'_>
    ensures { IsRowOf (node_view node.now) result }
{
    match node {
        TermNode::Variable(variable) => Row::Variable(variable.0),
        TermNode::Use(number, terms) => Row::Use(number.0, terms),
        TermNode::Postfix(base, steps, last) => Row::Postfix(base, steps, last),
        TermNode::Prefix(operator, term) => prefix_row(*operator, term),
        TermNode::Except(base, changes) => Row::Except(base, changes),
        TermNode::BoxAction(action, subscript) => Row::BoxAction(action, subscript),
        TermNode::AngleAction(action, subscript) => Row::AngleAction(action, subscript),
        TermNode::Known(_) => Row::Plain,
        TermNode::Named(_) => Row::Plain,
        TermNode::Slot(_) => Row::Plain,
        TermNode::Standard(_, _) => Row::Plain,
        TermNode::Parenthesized(_) => Row::Plain,
        TermNode::Scoped(_, _) => Row::Plain,
        TermNode::All(_) => Row::Plain,
        TermNode::Any(_) => Row::Plain,
        TermNode::Infix(_, _, _) => Row::Plain,
        TermNode::SetOf(_) => Row::Plain,
        TermNode::Filter(_, _) => Row::Plain,
        TermNode::Map(_, _) => Row::Plain,
        TermNode::Tuple(_) => Row::Plain,
        TermNode::Function(_, _) => Row::Plain,
        TermNode::FunctionSet(_, _) => Row::Plain,
        TermNode::Record(_) => Row::Plain,
        TermNode::RecordSet(_) => Row::Plain,
        TermNode::Quantified(_, _, _) => Row::Plain,
        TermNode::Choose(_, _) => Row::Plain,
        TermNode::If(_, _, _) => Row::Plain,
        TermNode::Case(_, None) => Row::Plain,
        TermNode::Case(_, Some(_)) => Row::Plain,
        TermNode::Fairness(_, _) => Row::Plain,
    }
}

/// What UNCHANGED is told of.
pub enum Shape<'a> {
    Variable(u16),
    Tuple(&'a Terms),
    Other,
}

pub fn shape_of(node: &TermNode) -> Shape<'_>
    ensures { IsShape (node_view node.now) result }
{
    match node {
        TermNode::Variable(variable) => Shape::Variable(variable.0),
        TermNode::Tuple(terms) => Shape::Tuple(terms),
        TermNode::Known(_) => Shape::Other,
        TermNode::Named(_) => Shape::Other,
        TermNode::Slot(_) => Shape::Other,
        TermNode::Use(_, _) => Shape::Other,
        TermNode::Standard(_, _) => Shape::Other,
        TermNode::Parenthesized(_) => Shape::Other,
        TermNode::Scoped(_, _) => Shape::Other,
        TermNode::All(_) => Shape::Other,
        TermNode::Any(_) => Shape::Other,
        TermNode::Prefix(_, _) => Shape::Other,
        TermNode::Infix(_, _, _) => Shape::Other,
        TermNode::Postfix(_, _, _) => Shape::Other,
        TermNode::SetOf(_) => Shape::Other,
        TermNode::Filter(_, _) => Shape::Other,
        TermNode::Map(_, _) => Shape::Other,
        TermNode::Function(_, _) => Shape::Other,
        TermNode::FunctionSet(_, _) => Shape::Other,
        TermNode::Record(_) => Shape::Other,
        TermNode::RecordSet(_) => Shape::Other,
        TermNode::Except(_, _) => Shape::Other,
        TermNode::Quantified(_, _, _) => Shape::Other,
        TermNode::Choose(_, _) => Shape::Other,
        TermNode::If(_, _, _) => Shape::Other,
        TermNode::Case(_, None) => Shape::Other,
        TermNode::Case(_, Some(_)) => Shape::Other,
        TermNode::BoxAction(_, _) => Shape::Other,
        TermNode::AngleAction(_, _) => Shape::Other,
        TermNode::Fairness(_, _) => Shape::Other,
    }
}
