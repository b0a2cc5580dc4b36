//! The terms that have something of their own beside their parts.

ghost use Rattle.names_terms.specs.TermViews.{node_view};
ghost use Rattle.names_term_parts.specs.Special.{IsSpecial};

use names_terms::{DefIds, TermNode, Terms};

/// The terms that are read in a way of their own: a slot, a use of a definition, and a LET.
pub enum Special<'a> {
    Slot(usize),
    Use(usize, &'a Terms),
    Let(&'a DefIds),
    Other,
}

pub fn special_of(node: &TermNode) -> Special<'_>
    ensures { IsSpecial (node_view node.now) result }
{
    match node {
        TermNode::Slot(slot) => Special::Slot(*slot),
        TermNode::Use(number, terms) => Special::Use(number.0, terms),
        TermNode::Scoped(numbers, _) => Special::Let(numbers),
        TermNode::Known(_) => Special::Other,
        TermNode::Named(_) => Special::Other,
        TermNode::Variable(_) => Special::Other,
        TermNode::Standard(_, _) => Special::Other,
        TermNode::Parenthesized(_) => Special::Other,
        TermNode::All(_) => Special::Other,
        TermNode::Any(_) => Special::Other,
        TermNode::Prefix(_, _) => Special::Other,
        TermNode::Infix(_, _, _) => Special::Other,
        TermNode::Postfix(_, _, _) => Special::Other,
        TermNode::SetOf(_) => Special::Other,
        TermNode::Filter(_, _) => Special::Other,
        TermNode::Map(_, _) => Special::Other,
        TermNode::Tuple(_) => Special::Other,
        TermNode::Function(_, _) => Special::Other,
        TermNode::FunctionSet(_, _) => Special::Other,
        TermNode::Record(_) => Special::Other,
        TermNode::RecordSet(_) => Special::Other,
        TermNode::Except(_, _) => Special::Other,
        TermNode::Quantified(_, _, _) => Special::Other,
        TermNode::Choose(_, _) => Special::Other,
        TermNode::If(_, _, _) => Special::Other,
        TermNode::Case(_, None) => Special::Other,
        TermNode::Case(_, Some(_)) => Special::Other,
        TermNode::BoxAction(_, _) => Special::Other,
        TermNode::AngleAction(_, _) => Special::Other,
        TermNode::Fairness(_, _) => Special::Other,
    }
}
