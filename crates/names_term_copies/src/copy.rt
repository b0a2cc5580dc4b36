//! Copies by rows and lists.
//!
//! A row whose last part may hold any number of rows like it is copied by a loop, so that such a row takes no stack.

ghost use Rattle.std.specs.Prelude.{◌≡◌, IfOk};
ghost use Rattle.names_terms.specs.TermViews.{node_view, step_view};
ghost use Rattle.names_term_copies.specs.Rows.{begun_meaning};

use crate::build::{copy_ids, known};
use crate::rows::{Begun, Opening, Row, closed_all};
use base_core::NoMemory;
use names_terms::{
    Arm, Arms, Bound, Bounds, Change, Changes, Field, Fields, Operand, Operands, Step, StepAt,
    Steps, Term, TermNode, Terms,
};
use std::alloc::Global;

/// An equal term of its own.
#[cycle(copy)]
pub fn copy_term(alloc: Global, term: &Term) -> Result<Term, NoMemory>
    ensures { IfOk result (λ copy. copy ≡ term.now) }
{
    let mut rows = Vec::new(alloc);
    let mut rest = term;
    loop {
        let at = rest.at;
        let level = rest.level;
        let begun = copy_node(alloc, &*rest.node)?;
        match begun {
            Begun::Whole(node) => {
                let whole = Term::new(alloc, at, level, node)?;
                return closed_all(alloc, rows, whole);
            }
            Begun::Open(opening, last) => {
                rows.push(Row { at, level, opening })?;
                rest = last;
            }
        }
    }
}

/// A copy of a node, but for a last part that may hold any number of rows like it.
#[cycle(copy)]
fn copy_node<'a>(alloc: Global, node: &'a TermNode) -> Result<Begun<'a>, NoMemory>
    ensures { IfOk result (λ b. begun_meaning b ≡ node_view node.now) }
{
    match node {
        TermNode::If(test, then, last) => {
            let test = copy_term(alloc, test)?;
            let then = copy_term(alloc, then)?;
            Ok(Begun::Open(Opening::If(test, then), last))
        }
        TermNode::Quantified(quantifier, bounds, body) => {
            let bounds = copy_bounds(alloc, bounds)?;
            Ok(Begun::Open(Opening::Quantified(*quantifier, bounds), body))
        }
        TermNode::Choose(set, test) => {
            let set = copy_term(alloc, set)?;
            Ok(Begun::Open(Opening::Choose(set), test))
        }
        TermNode::Scoped(definitions, body) => {
            let definitions = copy_ids(alloc, definitions)?;
            Ok(Begun::Open(Opening::Scoped(definitions), body))
        }
        TermNode::Known(value) => known(value),
        TermNode::Named(set) => Ok(Begun::Whole(TermNode::Named(*set))),
        TermNode::Variable(number) => Ok(Begun::Whole(TermNode::Variable(*number))),
        TermNode::Slot(number) => Ok(Begun::Whole(TermNode::Slot(*number))),
        TermNode::Use(number, terms) => {
            let terms = copy_terms(alloc, terms)?;
            Ok(Begun::Whole(TermNode::Use(*number, terms)))
        }
        TermNode::Standard(operator, terms) => {
            let terms = copy_terms(alloc, terms)?;
            Ok(Begun::Whole(TermNode::Standard(*operator, terms)))
        }
        TermNode::Parenthesized(inner) => {
            let inner = copy_term(alloc, inner)?;
            Ok(Begun::Whole(TermNode::Parenthesized(inner)))
        }
        TermNode::All(terms) => {
            let terms = copy_terms(alloc, terms)?;
            Ok(Begun::Whole(TermNode::All(terms)))
        }
        TermNode::Any(terms) => {
            let terms = copy_terms(alloc, terms)?;
            Ok(Begun::Whole(TermNode::Any(terms)))
        }
        TermNode::Prefix(operator, operand) => {
            let operand = copy_term(alloc, operand)?;
            Ok(Begun::Whole(TermNode::Prefix(*operator, operand)))
        }
        TermNode::Infix(operator, operands, last) => {
            let operands = copy_operands(alloc, operands)?;
            let last = copy_term(alloc, last)?;
            Ok(Begun::Whole(TermNode::Infix(*operator, operands, last)))
        }
        TermNode::Postfix(base, steps, last) => {
            let base = copy_term(alloc, base)?;
            let steps = copy_steps(alloc, steps)?;
            let last = copy_step(alloc, last)?;
            Ok(Begun::Whole(TermNode::Postfix(base, steps, last)))
        }
        TermNode::SetOf(terms) => {
            let terms = copy_terms(alloc, terms)?;
            Ok(Begun::Whole(TermNode::SetOf(terms)))
        }
        TermNode::Filter(set, test) => {
            let set = copy_term(alloc, set)?;
            let test = copy_term(alloc, test)?;
            Ok(Begun::Whole(TermNode::Filter(set, test)))
        }
        TermNode::Map(value, bounds) => {
            let value = copy_term(alloc, value)?;
            let bounds = copy_bounds(alloc, bounds)?;
            Ok(Begun::Whole(TermNode::Map(value, bounds)))
        }
        TermNode::Tuple(terms) => {
            let terms = copy_terms(alloc, terms)?;
            Ok(Begun::Whole(TermNode::Tuple(terms)))
        }
        TermNode::Function(bounds, value) => {
            let bounds = copy_bounds(alloc, bounds)?;
            let value = copy_term(alloc, value)?;
            Ok(Begun::Whole(TermNode::Function(bounds, value)))
        }
        TermNode::FunctionSet(domain, range) => {
            let domain = copy_term(alloc, domain)?;
            let range = copy_term(alloc, range)?;
            Ok(Begun::Whole(TermNode::FunctionSet(domain, range)))
        }
        TermNode::Record(fields) => {
            let fields = copy_fields(alloc, fields)?;
            Ok(Begun::Whole(TermNode::Record(fields)))
        }
        TermNode::RecordSet(fields) => {
            let fields = copy_fields(alloc, fields)?;
            Ok(Begun::Whole(TermNode::RecordSet(fields)))
        }
        TermNode::Except(base, changes) => {
            let base = copy_term(alloc, base)?;
            let changes = copy_changes(alloc, changes)?;
            Ok(Begun::Whole(TermNode::Except(base, changes)))
        }
        TermNode::Case(arms, None) => {
            let arms = copy_arms(alloc, arms)?;
            Ok(Begun::Whole(TermNode::Case(arms, None)))
        }
        TermNode::Case(arms, Some(other)) => {
            let arms = copy_arms(alloc, arms)?;
            let other = copy_term(alloc, other)?;
            Ok(Begun::Whole(TermNode::Case(arms, Some(other))))
        }
        TermNode::BoxAction(action, subscript) => {
            let action = copy_term(alloc, action)?;
            let subscript = copy_term(alloc, subscript)?;
            Ok(Begun::Whole(TermNode::BoxAction(action, subscript)))
        }
        TermNode::AngleAction(action, subscript) => {
            let action = copy_term(alloc, action)?;
            let subscript = copy_term(alloc, subscript)?;
            Ok(Begun::Whole(TermNode::AngleAction(action, subscript)))
        }
        TermNode::Fairness(subscript, action) => {
            let subscript = copy_term(alloc, subscript)?;
            let action = copy_term(alloc, action)?;
            Ok(Begun::Whole(TermNode::Fairness(subscript, action)))
        }
    }
}

#[cycle(copy)]
fn copy_terms(alloc: Global, terms: &Terms) -> Result<Terms, NoMemory>
    ensures { IfOk result (λ copy. copy ≡ terms.now) }
{
    let mut copy = Terms::new(alloc);
    for term in terms.items() {
        let term = copy_term(alloc, term)?;
        copy.push(term)?;
    }
    Ok(copy)
}

#[cycle(copy)]
fn copy_operands(alloc: Global, operands: &Operands) -> Result<Operands, NoMemory>
    ensures { IfOk result (λ copy. copy ≡ operands.now) }
{
    let (first, others) = operands.parts();
    let first = copy_term(alloc, first)?;
    let mut copy = Operands::new(alloc, first)?;
    for operand in others {
        let value = copy_term(alloc, &operand.value)?;
        copy.push(Operand {
            at: operand.at,
            value,
        })?;
    }
    Ok(copy)
}

#[cycle(copy)]
fn copy_step(alloc: Global, step: &Step) -> Result<Step, NoMemory>
    ensures { IfOk result (λ copy. step_view copy ≡ step_view step.now) }
{
    match step {
        Step::Prime => Ok(Step::Prime),
        Step::Index(terms) => {
            let terms = copy_terms(alloc, terms)?;
            Ok(Step::Index(terms))
        }
        Step::Field(name) => {
            let name = name.copy()?;
            Ok(Step::Field(name))
        }
    }
}

#[cycle(copy)]
fn copy_steps(alloc: Global, steps: &Steps) -> Result<Steps, NoMemory>
    ensures { IfOk result (λ copy. copy ≡ steps.now) }
{
    let mut copy = Steps::new(alloc);
    for item in steps.items() {
        let step = copy_step(alloc, &item.step)?;
        copy.push(StepAt { at: item.at, step })?;
    }
    Ok(copy)
}

#[cycle(copy)]
fn copy_bounds(alloc: Global, bounds: &Bounds) -> Result<Bounds, NoMemory>
    ensures { IfOk result (λ copy. copy ≡ bounds.now) }
{
    let mut copy = Bounds::new(alloc);
    for bound in bounds.items() {
        let set = copy_term(alloc, &bound.set)?;
        copy.push(Bound {
            names: bound.names,
            set,
        })?;
    }
    Ok(copy)
}

#[cycle(copy)]
fn copy_fields(alloc: Global, fields: &Fields) -> Result<Fields, NoMemory>
    ensures { IfOk result (λ copy. copy ≡ fields.now) }
{
    let mut copy = Fields::new(alloc);
    for field in fields.items() {
        let value = copy_term(alloc, &field.value)?;
        let name = field.name.copy()?;
        copy.push(Field { name, value })?;
    }
    Ok(copy)
}

#[cycle(copy)]
fn copy_changes(alloc: Global, changes: &Changes) -> Result<Changes, NoMemory>
    ensures { IfOk result (λ copy. copy ≡ changes.now) }
{
    let mut copy = Changes::new(alloc);
    for change in changes.items() {
        let path = copy_steps(alloc, &change.path)?;
        let value = copy_term(alloc, &change.value)?;
        copy.push(Change { path, value })?;
    }
    Ok(copy)
}

#[cycle(copy)]
fn copy_arms(alloc: Global, arms: &Arms) -> Result<Arms, NoMemory>
    ensures { IfOk result (λ copy. copy ≡ arms.now) }
{
    let mut copy = Arms::new(alloc);
    for arm in arms.items() {
        let test = copy_term(alloc, &arm.test)?;
        let value = copy_term(alloc, &arm.value)?;
        copy.push(Arm { test, value })?;
    }
    Ok(copy)
}
