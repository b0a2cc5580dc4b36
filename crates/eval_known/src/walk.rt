//! One walk over a term, which looks at each value that stands in it.

ghost use Rattle.std.specs.Prelude.{IfOk};
ghost use Rattle.names_terms.specs.TermViews.{node_view};
ghost use Rattle.eval_meanings.specs.Laws.{KnowsValue, KnowsValues};

use base_core::NoMemory;
use names_term_parts::{push, push_parts};
use names_terms::{Term, TermNode};
use std::alloc::Global;

/// What stands in a term as a known value is a value.
fn knows_own(node: &TermNode)
    ensures { KnowsValue (node_view node.now) }
{
    match node {
        TermNode::Known(value) => value.is_value(),
        TermNode::Named(_)
        | TermNode::Variable(_)
        | TermNode::Slot(_)
        | TermNode::Use(_, _)
        | TermNode::Standard(_, _)
        | TermNode::Parenthesized(_)
        | TermNode::Scoped(_, _)
        | TermNode::All(_)
        | TermNode::Any(_)
        | TermNode::Prefix(_, _)
        | TermNode::Infix(_, _, _)
        | TermNode::Postfix(_, _, _)
        | TermNode::SetOf(_)
        | TermNode::Filter(_, _)
        | TermNode::Map(_, _)
        | TermNode::Tuple(_)
        | TermNode::Function(_, _)
        | TermNode::FunctionSet(_, _)
        | TermNode::Record(_)
        | TermNode::RecordSet(_)
        | TermNode::Except(_, _)
        | TermNode::Quantified(_, _, _)
        | TermNode::Choose(_, _)
        | TermNode::If(_, _, _)
        | TermNode::Case(_, None)
        | TermNode::Case(_, Some(_))
        | TermNode::BoxAction(_, _)
        | TermNode::AngleAction(_, _)
        | TermNode::Fairness(_, _) => {}
    }
}

/// Each known value in a term is a value.
pub fn knows_values(alloc: Global, term: &Term) -> Result<(), NoMemory>
    ensures { IfOk result (λ done. KnowsValues term.now) }
{
    let mut stack = Vec::new(alloc);
    push(&mut stack, false, term)?;
    while let Some(pending) = stack.pop() {
        let part = pending.term;
        let node = &*part.node;
        knows_own(node);
        push_parts(&mut stack, false, node)?;
    }
    Ok(())
}
