//! Whether a term is a fairness conjunct.

ghost use Rattle.std.specs.Prelude.{◌≡◌, ◌≤◌, ◌↔◌, IfOk, IsTrue, length};
ghost use Rattle.names_terms.specs.TermViews.{node_view};
ghost use Rattle.names_term_levels.specs.Fairness.{Splits, fair_in, fair_use, split, split_quantified};
ghost use Rattle.names_term_levels.specs.Notes.{AreNotes};
ghost use Rattle.names_term_parts.specs.Parts.{listed};
ghost use Rattle.names_term_levels.specs.Shape.{IsFair};
ghost use Rattle.names_term_levels.specs.Told.{IsFairBy};
ghost use Rattle.names_term_parts.specs.Slots.{MentionsBelow};
ghost use Rattle.names_term_parts.specs.Waiting.{waiting};

use crate::note::Note;
use base_core::NoMemory;
use names_term_parts::{Pending, push, push_terms};
use names_terms::{DefId, Operator, Term, TermNode, Terms};
use reading_trees::Quantifier;
use std::alloc::Global;

fn split_all<'a>(stack: &mut Vec<Pending<'a>>, terms: &'a Terms) -> Result<bool, NoMemory>
    ensures { IfOk result (λ b. Splits (Some (listed terms.now)) b (waiting stack.old.items) (waiting stack.new.items)) }
{
    push_terms(stack, false, terms)?;
    Ok(true)
}

fn split_body<'a>(
    stack: &mut Vec<Pending<'a>>,
    quantifier: Quantifier,
    body: &'a Term,
) -> Result<bool, NoMemory>
    ensures { IfOk result (λ b. Splits (split_quantified quantifier body.now) b (waiting stack.old.items) (waiting stack.new.items)) }
{
    match quantifier {
        Quantifier::ForAll => {
            push(stack, false, body)?;
            Ok(true)
        }
        Quantifier::Exists => Ok(false),
    }
}

fn split_use(notes: &[Note], number: DefId, terms: &Terms) -> bool
    ensures { result ≡ fair_use (fair_in notes.now) number.0 terms.now }
{
    match notes.get(number.0) {
        Some(note) => note.fair && terms.is_empty(),
        None => false,
    }
}

/// Whether the term is fairness where those are that it puts on the stack.
fn split<'a>(
    notes: &[Note],
    stack: &mut Vec<Pending<'a>>,
    node: &'a TermNode,
) -> Result<bool, NoMemory>
    ensures { IfOk result (λ b. Splits (split (fair_in notes.now) (node_view node.now)) b (waiting stack.old.items) (waiting stack.new.items)) }
{
    match node {
        TermNode::Fairness(_, _) => Ok(true),
        TermNode::All(terms) => split_all(stack, terms),
        TermNode::Quantified(quantifier, _, body) => split_body(stack, *quantifier, body),
        TermNode::Use(number, terms) => Ok(split_use(notes, *number, terms)),
        TermNode::Known(_) => Ok(false),
        TermNode::Named(_) => Ok(false),
        TermNode::Variable(_) => Ok(false),
        TermNode::Slot(_) => Ok(false),
        TermNode::Standard(_, _) => Ok(false),
        TermNode::Parenthesized(_) => Ok(false),
        TermNode::Scoped(_, _) => Ok(false),
        TermNode::Any(_) => Ok(false),
        TermNode::Prefix(_, _) => Ok(false),
        TermNode::Infix(_, _, _) => Ok(false),
        TermNode::Postfix(_, _, _) => Ok(false),
        TermNode::SetOf(_) => Ok(false),
        TermNode::Filter(_, _) => Ok(false),
        TermNode::Map(_, _) => Ok(false),
        TermNode::Tuple(_) => Ok(false),
        TermNode::Function(_, _) => Ok(false),
        TermNode::FunctionSet(_, _) => Ok(false),
        TermNode::Record(_) => Ok(false),
        TermNode::RecordSet(_) => Ok(false),
        TermNode::Except(_, _) => Ok(false),
        TermNode::Choose(_, _) => Ok(false),
        TermNode::If(_, _, _) => Ok(false),
        TermNode::Case(_, None) => Ok(false),
        TermNode::Case(_, Some(_)) => Ok(false),
        TermNode::BoxAction(_, _) => Ok(false),
        TermNode::AngleAction(_, _) => Ok(false),
    }
}

/// Whether a term is a fairness conjunct, where notes tell which definitions mean one.
pub fn fair_by(alloc: Global, notes: &[Note], term: &Term) -> Result<bool, NoMemory>
    ensures { IfOk result (λ b. IsTrue b ↔ IsFairBy notes.now term.now) }
{
    let mut stack = Vec::new(alloc);
    push(&mut stack, false, term)?;
    while let Some(pending) = stack.pop() {
        let part = pending.term;
        if !split(notes, &mut stack, &*part.node)? {
            return Ok(false);
        }
    }
    Ok(true)
}

/// Whether a term is a fairness conjunct, where the definitions that it uses have their notes.
pub fn is_fair(
    alloc: Global,
    table: &[Operator],
    notes: &[Note],
    term: &Term,
) -> Result<bool, NoMemory>
    requires noted { AreNotes table.now notes.now }
    requires known { length notes.now ≤ length table.now }
    requires below { MentionsBelow (length notes.now) term.now }
    ensures { IfOk result (λ b. IsTrue b ↔ IsFair table.now term.now) }
{
    let _definitions = table;
    fair_by(alloc, notes, term)
}
