//! The conjuncts of the operator of SPECIFICATION.

ghost use Rattle.std.specs.Prelude.{◌≡◌, ◌≤◌, ◌++◌, [], ◌∷◌, IfOk, MatchOption, OnOk, ◌↔◌, length, reverse};
ghost use Rattle.names_terms.specs.Terms.{Prefix, level_of, meaning_of};
ghost use Rattle.names_terms.specs.TermViews.{node_view};
ghost use Rattle.names_term_levels.specs.Conjuncts.{Becomes, IsConjunct, IsUnfair, Opens, Takes, boxed, contribution_of};
ghost use Rattle.names_term_levels.specs.Shape.{rows, Gives, Contribution, contribution};
ghost use Rattle.names_term_levels.specs.Notes.{AreNotes};
ghost use Rattle.names_term_parts.specs.Parts.{listed};
ghost use Rattle.names_term_parts.specs.Slots.{MentionsBelow};

use crate::fairness::is_fair;
use crate::note::Note;
use base_core::NoMemory;
use names_term_parts::is_above;
use names_terms::{Level, Operator, Term, TermNode, Terms};
use reading_trees::PrefixOperator;
use std::alloc::Global;

/// What a conjunct is.
#[derive(Clone, Copy, Drop)]
pub enum Conjunct<'a> {
    Init,
    Step(&'a Term),
    Fairness,
    Conjunction(&'a Terms),
    Other,
}

/// The conjuncts of Init, and the actions that are always taken.
#[derive(Drop)]
pub struct Gathered<'a> {
    pub inits: Vec<&'a Term>,
    pub steps: Vec<&'a Term>,
}

/// The action of `[A]_v`.
fn boxed(node: &TermNode) -> Option<&Term>
    ensures { MatchOption result (boxed (node_view node.now) ≡ None) (λ a. boxed (node_view node.now) ≡ Some a.now) }
{
    match node {
        TermNode::BoxAction(action, _) => Some(action),
        TermNode::Known(_) => None,
        TermNode::Named(_) => None,
        TermNode::Variable(_) => None,
        TermNode::Slot(_) => None,
        TermNode::Use(_, _) => None,
        TermNode::Standard(_, _) => None,
        TermNode::Parenthesized(_) => None,
        TermNode::Scoped(_, _) => None,
        TermNode::All(_) => None,
        TermNode::Any(_) => None,
        TermNode::Prefix(_, _) => None,
        TermNode::Infix(_, _, _) => None,
        TermNode::Postfix(_, _, _) => None,
        TermNode::SetOf(_) => None,
        TermNode::Filter(_, _) => None,
        TermNode::Map(_, _) => None,
        TermNode::Tuple(_) => None,
        TermNode::Function(_, _) => None,
        TermNode::FunctionSet(_, _) => None,
        TermNode::Record(_) => None,
        TermNode::RecordSet(_) => None,
        TermNode::Except(_, _) => None,
        TermNode::Quantified(_, _, _) => None,
        TermNode::Choose(_, _) => None,
        TermNode::If(_, _, _) => None,
        TermNode::Case(_, None) => None,
        TermNode::Case(_, Some(_)) => None,
        TermNode::AngleAction(_, _) => None,
        TermNode::Fairness(_, _) => None,
    }
}

/// The action of `[A]_v` where that is the whole term.
fn boxed_in(term: &Term) -> Option<&Term>
    ensures { MatchOption result (boxed (meaning_of term.now) ≡ None) (λ a. boxed (meaning_of term.now) ≡ Some a.now) }
{
    boxed(&*term.node)
}

/// What a term under a prefix operator is.
fn prefixed(operator: PrefixOperator, term: &Term) -> Conjunct<'_>
    ensures { IsUnfair (Prefix operator term.now) result }
{
    match operator {
        PrefixOperator::Always => match boxed_in(term) {
            Some(action) => {
                if is_above(action.level, Level::Action) {
                    return Conjunct::Other;
                }
                Conjunct::Step(action)
            }
            None => Conjunct::Other,
        },
        PrefixOperator::Not => Conjunct::Other,
        PrefixOperator::Unchanged => Conjunct::Other,
        PrefixOperator::Enabled => Conjunct::Other,
        PrefixOperator::Eventually => Conjunct::Other,
        PrefixOperator::Powerset => Conjunct::Other,
        PrefixOperator::BigUnion => Conjunct::Other,
        PrefixOperator::Domain => Conjunct::Other,
        PrefixOperator::Negate => Conjunct::Other,
    }
}

/// What a term of level 3 that is no fairness is.
fn unfair(node: &TermNode) -> Conjunct<'_>
    ensures { IsUnfair (node_view node.now) result }
{
    match node {
        TermNode::All(terms) => Conjunct::Conjunction(terms),
        TermNode::Prefix(operator, term) => prefixed(*operator, term),
        TermNode::BoxAction(_, _) => Conjunct::Other,
        TermNode::Known(_) => Conjunct::Other,
        TermNode::Named(_) => Conjunct::Other,
        TermNode::Variable(_) => Conjunct::Other,
        TermNode::Slot(_) => Conjunct::Other,
        TermNode::Use(_, _) => Conjunct::Other,
        TermNode::Standard(_, _) => Conjunct::Other,
        TermNode::Parenthesized(_) => Conjunct::Other,
        TermNode::Scoped(_, _) => Conjunct::Other,
        TermNode::Any(_) => Conjunct::Other,
        TermNode::Infix(_, _, _) => Conjunct::Other,
        TermNode::Postfix(_, _, _) => Conjunct::Other,
        TermNode::SetOf(_) => Conjunct::Other,
        TermNode::Filter(_, _) => Conjunct::Other,
        TermNode::Map(_, _) => Conjunct::Other,
        TermNode::Tuple(_) => Conjunct::Other,
        TermNode::Function(_, _) => Conjunct::Other,
        TermNode::FunctionSet(_, _) => Conjunct::Other,
        TermNode::Record(_) => Conjunct::Other,
        TermNode::RecordSet(_) => Conjunct::Other,
        TermNode::Except(_, _) => Conjunct::Other,
        TermNode::Quantified(_, _, _) => Conjunct::Other,
        TermNode::Choose(_, _) => Conjunct::Other,
        TermNode::If(_, _, _) => Conjunct::Other,
        TermNode::Case(_, None) => Conjunct::Other,
        TermNode::Case(_, Some(_)) => Conjunct::Other,
        TermNode::AngleAction(_, _) => Conjunct::Other,
        TermNode::Fairness(_, _) => Conjunct::Other,
    }
}

fn temporal<'a>(
    alloc: Global,
    table: &[Operator],
    notes: &[Note],
    term: &'a Term,
) -> Result<Conjunct<'a>, NoMemory>
    requires noted { AreNotes table.now notes.now }
    requires known { length notes.now ≤ length table.now }
    requires below { MentionsBelow (length notes.now) term.now }
    requires level { level_of term.now ≡ Level.Temporal }
    ensures { IfOk result (IsConjunct table.now term.now) }
{
    if is_fair(alloc, table, notes, term)? {
        return Ok(Conjunct::Fairness);
    }
    Ok(unfair(&*term.node))
}

/// What a conjunct is.
fn conjunct_of<'a>(
    alloc: Global,
    table: &[Operator],
    notes: &[Note],
    term: &'a Term,
) -> Result<Conjunct<'a>, NoMemory>
    requires noted { AreNotes table.now notes.now }
    requires known { length notes.now ≤ length table.now }
    requires below { MentionsBelow (length notes.now) term.now }
    ensures { IfOk result (IsConjunct table.now term.now) }
{
    match term.level {
        Level::Constant => Ok(Conjunct::Init),
        Level::State => Ok(Conjunct::Init),
        Level::Action => Ok(Conjunct::Other),
        Level::Temporal => temporal(alloc, table, notes, term),
    }
}

/// Puts terms on the stack, the first at the top.
fn push_reversed<'a>(stack: &mut Vec<&'a Term>, terms: &'a [Term]) -> Result<(), NoMemory>
    ensures { OnOk result (rows stack.new.items ≡ rows stack.old.items ++ reverse terms.now) }
{
    let mut left = terms.len();
    while left > 0 {
        left -= 1;
        stack.push(&terms[left])?;
    }
    Ok(())
}

fn push_conjunction<'a>(stack: &mut Vec<&'a Term>, terms: &'a Terms) -> Result<(), NoMemory>
    ensures { OnOk result (rows stack.new.items ≡ rows stack.old.items ++ reverse (listed terms.now)) }
{
    push_reversed(stack, terms.items())
}

fn take_init<'a>(gathered: &mut Gathered<'a>, term: &'a Term) -> Result<bool, NoMemory>
    ensures { IfOk result (λ b. Becomes b (contribution_of gathered.new) (contribution ((contribution_of gathered.old).inits ++ term.now ∷ []) (contribution_of gathered.old).steps)) }
{
    gathered.inits.push(term)?;
    Ok(true)
}

fn take_step<'a>(gathered: &mut Gathered<'a>, action: &'a Term) -> Result<bool, NoMemory>
    ensures { IfOk result (λ b. Becomes b (contribution_of gathered.new) (contribution (contribution_of gathered.old).inits ((contribution_of gathered.old).steps ++ action.now ∷ []))) }
{
    gathered.steps.push(action)?;
    Ok(true)
}

fn open_conjunction<'a>(stack: &mut Vec<&'a Term>, terms: &'a Terms) -> Result<bool, NoMemory>
    ensures { IfOk result (λ b. Opens b (rows stack.new.items) (rows stack.old.items ++ reverse (listed terms.now))) }
{
    push_conjunction(stack, terms)?;
    Ok(true)
}

/// Takes one conjunct: whether it is one that may stand there.
fn take<'a>(
    alloc: Global,
    table: &[Operator],
    notes: &[Note],
    stack: &mut Vec<&'a Term>,
    gathered: &mut Gathered<'a>,
    term: &'a Term,
) -> Result<bool, NoMemory>
    requires noted { AreNotes table.now notes.now }
    requires known { length notes.now ≤ length table.now }
    requires below { MentionsBelow (length notes.now) term.now }
    ensures { IfOk result (λ b. Takes table.now term.now b (rows stack.old.items) (rows stack.new.items) (contribution_of gathered.old) (contribution_of gathered.new)) }
{
    let kind = conjunct_of(alloc, table, notes, term)?;
    match kind {
        Conjunct::Init => take_init(gathered, term),
        Conjunct::Step(action) => take_step(gathered, action),
        Conjunct::Fairness => Ok(true),
        Conjunct::Conjunction(terms) => open_conjunction(stack, terms),
        Conjunct::Other => Ok(false),
    }
}

/// The conjuncts of Init and the actions that are always taken, or none where a conjunct is neither these nor fairness.
pub fn gather<'a>(
    alloc: Global,
    table: &[Operator],
    notes: &[Note],
    body: &'a Term,
) -> Result<Option<Gathered<'a>>, NoMemory>
    requires noted { AreNotes table.now notes.now }
    requires known { length notes.now ≤ length table.now }
    requires below { MentionsBelow (length notes.now) body.now }
    ensures { IfOk result (λ o. MatchOption o ((p : Contribution) → ¬ Gives table.now body.now p) (λ g. (p : Contribution) → Gives table.now body.now p ↔ (p ≡ contribution_of g))) }
{
    let mut gathered = Gathered {
        inits: Vec::new(alloc),
        steps: Vec::new(alloc),
    };
    let mut stack = Vec::new(alloc);
    stack.push(body)?;
    while let Some(term) = stack.pop() {
        if !take(alloc, table, notes, &mut stack, &mut gathered, term)? {
            return Ok(None);
        }
    }
    Ok(Some(gathered))
}
