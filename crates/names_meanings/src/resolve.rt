//! From trees to terms.
//!
//! A scope is one list, which grows where names are bound and is cut back behind the part that sees them. Rows whose last part reaches as far
//! right as possible are read by a loop, so that any number of them takes no stack.

ghost use Rattle.std.specs.Prelude.{◌≡◌, IfOk, IfErr, OnOk, MatchOption, None, false};
ghost use Rattle.reading_trees.specs.Trees.{Call as CallTree};
ghost use Rattle.reading_trees.specs.TreeViews.{step_view as step_tree};
ghost use Rattle.names_terms.specs.TermViews.{node_view, step_view};
ghost use Rattle.names_meanings.specs.Around.{takes};
ghost use Rattle.names_meanings.specs.Complaints.{bound_name, with_name, with_bounds, counted, complaint, complaints, operands_complaint, step_complaint, steps_complaint, bounds_complaint, fields_complaint, changes_complaint, arms_complaint, definitions_complaint};
ghost use Rattle.names_meanings.specs.Outcomes.{Complains};
ghost use Rattle.names_meanings.specs.Pendings.{Opens, OpensRow, StaysClosed};
ghost use Rattle.names_scopes.specs.Reaching.{reaches_right};
ghost use Rattle.names_meanings.specs.Reads.{ResolvesTo, ResolvesRow, Resolves, ResolvesEach, ResolvesOperands, ResolvesOthers, ResolvesStep, ResolvesSteps, ResolvesBounds, ResolvesFields, ResolvesChanges, ResolvesArms, ResolvesDefinitions, ResolvesWithin, ResolvesUnder, IsUse, RefusesOthers};

use crate::build::{builtin_set, chain, junction, known_text};
use crate::fault::NameFault;
use crate::own::{begin, end, not_itself};
use crate::pending::{Pending, add_row, closed_all};
use crate::walk::Walk;
use base_core::{Place, Text};
use names_scopes::{others_of, used};
use names_terms::{
    Arm, Arms, Bound, Bounds, Change, Changes, DefIds, Field, Fields, Operand, Operands, Step,
    StepAt, Steps, Term, TermNode, Terms,
};
use reading_trees::{
    Arms as ArmTrees, Bounds as BoundTrees, Changes as ChangeTrees, Definitions, Expr, Exprs,
    Fields as FieldTrees, Node, Operands as OperandTrees, Step as StepTree, Steps as StepTrees,
};
use std::alloc::Global;
use values_core::Value;

/// What a tree means, in the scope as it is; behind it the scope is cut back to its first names, so many of them.
#[cycle(resolve)]
pub fn resolve_to(
    alloc: Global,
    walk: &mut Walk<'_>,
    depth: usize,
    tree: &Expr,
) -> Result<Term, NameFault>
    ensures fine { IfOk result (λ e. ResolvesTo walk.old walk.new depth tree.now e) }
    ensures refused { IfErr result (Complains (complaint (takes walk.old) tree.now)) }
{
    walk.is_around();
    let (rows, rest) = open(alloc, walk, tree)?;
    let node = resolve_row(alloc, walk, rest)?;
    let term = walk.placed(alloc, rest.at, node)?;
    walk.cut(depth);
    let whole = closed_all(alloc, rows, term)?;
    Ok(whole)
}

/// What a tree means, behind which the scope is as it was.
#[cycle(resolve)]
fn resolve(alloc: Global, walk: &mut Walk<'_>, tree: &Expr) -> Result<Term, NameFault>
    ensures fine { IfOk result (λ e. Resolves walk.old walk.new tree.now e) }
    ensures refused { IfErr result (Complains (complaint (takes walk.old) tree.now)) }
{
    let depth = walk.depth();
    resolve_to(alloc, walk, depth, tree)
}

/// The rows that a tree begins with whose last parts reach as far right as possible, without those parts, and the rest.
#[cycle(resolve)]
fn open<'a>(
    alloc: Global,
    walk: &mut Walk<'_>,
    tree: &'a Expr,
) -> Result<(Vec<Pending>, &'a Expr), NameFault>
    ensures fine { IfOk result (λ p. Opens walk.old walk.new p.0.items tree.now p.1.now) }
    ensures rest { IfOk result (λ p. reaches_right p.1.now ≡ false) }
    ensures refused { IfErr result (Complains (complaint (takes walk.old) tree.now)) }
{
    let mut rows = Vec::new(alloc);
    let mut rest = tree;
    while let Some(last) = open_row(alloc, walk, &mut rows, rest)? {
        rest = last;
    }
    Ok((rows, rest))
}

/// Adds the row that a tree is, and gives its last part, where that reaches as far right as possible.
#[cycle(resolve)]
fn open_row<'a>(
    alloc: Global,
    walk: &mut Walk<'_>,
    rows: &mut Vec<Pending>,
    tree: &'a Expr,
) -> Result<Option<&'a Expr>, NameFault>
    ensures fine { IfOk result (λ o. MatchOption o (StaysClosed walk.old walk.new rows.old.items rows.new.items tree.now) (λ last. OpensRow walk.old walk.new rows.old.items rows.new.items tree.now last.now)) }
    ensures refused { IfErr result (Complains (complaint (takes walk.old) tree.now)) }
{
    match &*tree.node {
        Node::If(test, then, last) => {
            let test = resolve(alloc, walk, test)?;
            let then = resolve(alloc, walk, then)?;
            add_row(rows, Pending::If(tree.at, test, then))?;
            Ok(Some(last))
        }
        Node::Quantified(quantifier, bounds, body) => {
            let sets = resolve_bounds(alloc, walk, bounds)?;
            walk.bind_bounds(bounds)?;
            add_row(rows, Pending::Quantified(tree.at, *quantifier, sets))?;
            Ok(Some(body))
        }
        Node::Choose(name, set, body) => {
            let set = resolve(alloc, walk, set)?;
            walk.bind_name(name)?;
            add_row(rows, Pending::Choose(tree.at, set))?;
            Ok(Some(body))
        }
        Node::Let(definitions, body) => {
            let numbers = resolve_definitions(alloc, walk, definitions)?;
            add_row(rows, Pending::Scoped(tree.at, numbers))?;
            Ok(Some(body))
        }
        _ => Ok(None),
    }
}

/// A use of a name without arguments.
fn use_of(alloc: Global, walk: &Walk<'_>, name: &Text, at: Place) -> Result<TermNode, NameFault>
    ensures fine { IfOk result (λ n. IsUse walk.now name.now at (node_view n)) }
    ensures refused { IfErr result (Complains (counted name.now at 0 (takes walk.now name.now))) }
{
    let meant = walk.sought(name, at, 0)?;
    Ok(used(meant, Terms::new(alloc)))
}

/// What a tree means that ends with no part that reaches as far right as possible.
#[cycle(resolve)]
fn resolve_row(alloc: Global, walk: &mut Walk<'_>, tree: &Expr) -> Result<TermNode, NameFault>
    requires { reaches_right tree.now ≡ false }
    ensures fine { IfOk result (λ n. ResolvesRow walk.old walk.new tree.now (node_view n)) }
    ensures refused { IfErr result (Complains (complaint (takes walk.old) tree.now)) }
{
    match &*tree.node {
        Node::Number(number) => Ok(TermNode::Known(Value::int(*number))),
        Node::Str(text) => Ok(known_text(text)?),
        Node::Truth(truth) => Ok(TermNode::Known(Value::boolean(*truth))),
        Node::Builtin(set) => Ok(TermNode::Named(builtin_set(*set))),
        Node::Name(name) => use_of(alloc, walk, name, tree.at),
        Node::Call(name, arguments) => resolve_call(alloc, walk, tree.at, name, arguments),
        Node::Qualified(name, arguments) => resolve_call(alloc, walk, tree.at, name, arguments),
        Node::At => use_of(alloc, walk, &Text::from_text(alloc, "@")?, tree.at),
        Node::Parenthesized(inner) => {
            let inner = resolve(alloc, walk, inner)?;
            Ok(TermNode::Parenthesized(inner))
        }
        Node::Junction(bullet, items) => {
            let terms = resolve_each(alloc, walk, items)?;
            Ok(junction(*bullet, terms))
        }
        Node::Prefix(operator, operand) => {
            let operand = resolve(alloc, walk, operand)?;
            Ok(TermNode::Prefix(*operator, operand))
        }
        Node::Infix(operator, operands, last) => {
            let operands = resolve_operands(alloc, walk, operands)?;
            let last = resolve(alloc, walk, last)?;
            Ok(chain(alloc, *operator, operands, last)?)
        }
        Node::Postfix(base, steps, last) => {
            let base = resolve(alloc, walk, base)?;
            let steps = resolve_steps(alloc, walk, steps)?;
            let last = resolve_step(alloc, walk, last)?;
            Ok(TermNode::Postfix(base, steps, last))
        }
        Node::SetOf(items) => {
            let terms = resolve_each(alloc, walk, items)?;
            Ok(TermNode::SetOf(terms))
        }
        Node::Filter(name, set, test) => {
            let set = resolve(alloc, walk, set)?;
            let test = resolve_under(alloc, walk, name, test)?;
            Ok(TermNode::Filter(set, test))
        }
        Node::Map(value, bounds) => {
            let value = resolve_within(alloc, walk, value, bounds)?;
            let sets = resolve_bounds(alloc, walk, bounds)?;
            Ok(TermNode::Map(value, sets))
        }
        Node::Tuple(items) => {
            let terms = resolve_each(alloc, walk, items)?;
            Ok(TermNode::Tuple(terms))
        }
        Node::Function(bounds, value) => {
            let sets = resolve_bounds(alloc, walk, bounds)?;
            let value = resolve_within(alloc, walk, value, bounds)?;
            Ok(TermNode::Function(sets, value))
        }
        Node::FunctionSet(domain, range) => {
            let domain = resolve(alloc, walk, domain)?;
            let range = resolve(alloc, walk, range)?;
            Ok(TermNode::FunctionSet(domain, range))
        }
        Node::Record(fields) => {
            let fields = resolve_fields(alloc, walk, fields)?;
            Ok(TermNode::Record(fields))
        }
        Node::RecordSet(fields) => {
            let fields = resolve_fields(alloc, walk, fields)?;
            Ok(TermNode::RecordSet(fields))
        }
        Node::Except(function, changes) => {
            let function = resolve(alloc, walk, function)?;
            let changes = resolve_changes(alloc, walk, changes)?;
            Ok(TermNode::Except(function, changes))
        }
        Node::Case(arms, None) => {
            let arms = resolve_arms(alloc, walk, arms)?;
            Ok(TermNode::Case(arms, None))
        }
        Node::Case(arms, Some(other)) => {
            let arms = resolve_arms(alloc, walk, arms)?;
            let other = resolve(alloc, walk, other)?;
            Ok(TermNode::Case(arms, Some(other)))
        }
        Node::BoxAction(action, subscript) => {
            let action = resolve(alloc, walk, action)?;
            let subscript = resolve(alloc, walk, subscript)?;
            Ok(TermNode::BoxAction(action, subscript))
        }
        Node::AngleAction(action, subscript) => {
            let action = resolve(alloc, walk, action)?;
            let subscript = resolve(alloc, walk, subscript)?;
            Ok(TermNode::AngleAction(action, subscript))
        }
        Node::Fairness(subscript, action) => {
            let subscript = resolve(alloc, walk, subscript)?;
            let action = resolve(alloc, walk, action)?;
            Ok(TermNode::Fairness(subscript, action))
        }
        Node::Quantified(_, _, _) => unreachable!(),
        Node::Choose(_, _, _) => unreachable!(),
        Node::If(_, _, _) => unreachable!(),
        Node::Let(_, _) => unreachable!(),
    }
}

#[cycle(resolve)]
fn resolve_call(
    alloc: Global,
    walk: &mut Walk<'_>,
    at: Place,
    name: &Text,
    arguments: &Exprs,
) -> Result<TermNode, NameFault>
    ensures fine { IfOk result (λ n. ResolvesRow walk.old walk.new (CallTree at name.now arguments.now) (node_view n)) }
    ensures refused { IfErr result (Complains (complaint (takes walk.old) (CallTree at name.now arguments.now))) }
{
    let found = arguments.items().len();
    let meant = walk.sought(name, at, found)?;
    let terms = resolve_each(alloc, walk, arguments)?;
    Ok(used(meant, terms))
}

/// What a tree means where a name is bound, behind which the scope is as it was.
#[cycle(resolve)]
fn resolve_under(
    alloc: Global,
    walk: &mut Walk<'_>,
    name: &Text,
    tree: &Expr,
) -> Result<Term, NameFault>
    ensures fine { IfOk result (λ e. ResolvesUnder walk.old walk.new name.now tree.now e) }
    ensures refused { IfErr result (Complains (complaint (with_name (takes walk.old) name.now bound_name) tree.now)) }
{
    let depth = walk.depth();
    walk.bind_name(name)?;
    resolve_to(alloc, walk, depth, tree)
}

/// What a tree means where the names of bounds are bound, behind which the scope is as it was.
#[cycle(resolve)]
fn resolve_within(
    alloc: Global,
    walk: &mut Walk<'_>,
    tree: &Expr,
    bounds: &BoundTrees,
) -> Result<Term, NameFault>
    ensures fine { IfOk result (λ e. ResolvesWithin walk.old walk.new bounds.now tree.now e) }
    ensures refused { IfErr result (Complains (complaint (with_bounds (takes walk.old) bounds.now) tree.now)) }
{
    let depth = walk.depth();
    walk.bind_bounds(bounds)?;
    resolve_to(alloc, walk, depth, tree)
}

#[cycle(resolve)]
fn resolve_each(alloc: Global, walk: &mut Walk<'_>, trees: &Exprs) -> Result<Terms, NameFault>
    ensures fine { IfOk result (λ ts. ResolvesEach walk.old walk.new trees.now ts) }
    ensures refused { IfErr result (Complains (complaints (takes walk.old) trees.now)) }
{
    let mut terms = Terms::new(alloc);
    for tree in trees.items() {
        let term = resolve(alloc, walk, tree)?;
        terms.push(term)?;
    }
    Ok(terms)
}

#[cycle(resolve)]
fn resolve_operands(
    alloc: Global,
    walk: &mut Walk<'_>,
    trees: &OperandTrees,
) -> Result<Operands, NameFault>
    ensures fine { IfOk result (λ os. ResolvesOperands walk.old walk.new trees.now os) }
    ensures refused { IfErr result (Complains (operands_complaint (takes walk.old) trees.now)) }
{
    let (first, _) = trees.parts();
    let first = resolve(alloc, walk, first)?;
    let mut operands = Operands::new(alloc, first)?;
    resolve_others(alloc, walk, trees, &mut operands)?;
    Ok(operands)
}

/// Adds what the operands behind the first mean.
#[cycle(resolve)]
fn resolve_others(
    alloc: Global,
    walk: &mut Walk<'_>,
    trees: &OperandTrees,
    operands: &mut Operands,
) -> Result<(), NameFault>
    ensures fine { OnOk result (ResolvesOthers walk.old walk.new trees.now operands.old operands.new) }
    ensures refused { IfErr result (RefusesOthers walk.old trees.now operands.old) }
{
    for tree in others_of(trees) {
        let value = resolve(alloc, walk, &tree.value)?;
        operands.push(Operand { at: tree.at, value })?;
    }
    Ok(())
}

#[cycle(resolve)]
fn resolve_step(alloc: Global, walk: &mut Walk<'_>, tree: &StepTree) -> Result<Step, NameFault>
    ensures fine { IfOk result (λ s. ResolvesStep walk.old walk.new (step_tree tree.now) (step_view s)) }
    ensures refused { IfErr result (Complains (step_complaint (takes walk.old) (step_tree tree.now))) }
{
    match tree {
        StepTree::Prime => Ok(Step::Prime),
        StepTree::Index(items) => {
            let terms = resolve_each(alloc, walk, items)?;
            Ok(Step::Index(terms))
        }
        StepTree::Field(name) => {
            let name = name.copy()?;
            Ok(Step::Field(name))
        }
    }
}

#[cycle(resolve)]
fn resolve_steps(alloc: Global, walk: &mut Walk<'_>, trees: &StepTrees) -> Result<Steps, NameFault>
    ensures fine { IfOk result (λ ss. ResolvesSteps walk.old walk.new trees.now ss) }
    ensures refused { IfErr result (Complains (steps_complaint (takes walk.old) trees.now)) }
{
    let mut steps = Steps::new(alloc);
    for tree in trees.items() {
        let step = resolve_step(alloc, walk, &tree.step)?;
        steps.push(StepAt { at: tree.at, step })?;
    }
    Ok(steps)
}

#[cycle(resolve)]
fn resolve_bounds(
    alloc: Global,
    walk: &mut Walk<'_>,
    trees: &BoundTrees,
) -> Result<Bounds, NameFault>
    ensures fine { IfOk result (λ bs. ResolvesBounds walk.old walk.new trees.now bs) }
    ensures refused { IfErr result (Complains (bounds_complaint (takes walk.old) trees.now)) }
{
    let mut bounds = Bounds::new(alloc);
    for tree in trees.items() {
        let set = resolve(alloc, walk, &tree.set)?;
        let names = tree.names.len();
        bounds.push(Bound { names, set })?;
    }
    Ok(bounds)
}

#[cycle(resolve)]
fn resolve_fields(
    alloc: Global,
    walk: &mut Walk<'_>,
    trees: &FieldTrees,
) -> Result<Fields, NameFault>
    ensures fine { IfOk result (λ fs. ResolvesFields walk.old walk.new trees.now fs) }
    ensures refused { IfErr result (Complains (fields_complaint (takes walk.old) trees.now)) }
{
    let mut fields = Fields::new(alloc);
    for tree in trees.items() {
        let value = resolve(alloc, walk, &tree.value)?;
        let name = tree.name.copy()?;
        fields.push(Field { name, value })?;
    }
    Ok(fields)
}

#[cycle(resolve)]
fn resolve_changes(
    alloc: Global,
    walk: &mut Walk<'_>,
    trees: &ChangeTrees,
) -> Result<Changes, NameFault>
    ensures fine { IfOk result (λ cs. ResolvesChanges walk.old walk.new trees.now cs) }
    ensures refused { IfErr result (Complains (changes_complaint (takes walk.old) trees.now)) }
{
    let at_sign = Text::from_text(alloc, "@")?;
    let mut changes = Changes::new(alloc);
    for tree in trees.items() {
        let path = resolve_steps(alloc, walk, &tree.path)?;
        let value = resolve_under(alloc, walk, &at_sign, &tree.value)?;
        changes.push(Change { path, value })?;
    }
    Ok(changes)
}

#[cycle(resolve)]
fn resolve_arms(alloc: Global, walk: &mut Walk<'_>, trees: &ArmTrees) -> Result<Arms, NameFault>
    ensures fine { IfOk result (λ arms. ResolvesArms walk.old walk.new trees.now arms) }
    ensures refused { IfErr result (Complains (arms_complaint (takes walk.old) trees.now)) }
{
    let mut arms = Arms::new(alloc);
    for tree in trees.items() {
        let test = resolve(alloc, walk, &tree.test)?;
        let value = resolve(alloc, walk, &tree.value)?;
        arms.push(Arm { test, value })?;
    }
    Ok(arms)
}

/// Adds the definitions of a LET to the table, and binds their names.
#[cycle(resolve)]
fn resolve_definitions(
    alloc: Global,
    walk: &mut Walk<'_>,
    trees: &Definitions,
) -> Result<DefIds, NameFault>
    ensures fine { IfOk result (λ ks. ResolvesDefinitions walk.old walk.new trees.now ks) }
    ensures refused { IfErr result (Complains (definitions_complaint (takes walk.old) trees.now)) }
{
    let mut numbers = DefIds::new(alloc);
    for tree in trees.items() {
        walk.is_around();
        not_itself(alloc, walk, tree)?;
        let depth = walk.depth();
        let place = begin(alloc, walk, tree)?;
        walk.bind(tree.params.items())?;
        let body = resolve_to(alloc, walk, depth, &tree.body)?;
        let number = end(alloc, walk, tree, place, body)?;
        numbers.push(number)?;
    }
    Ok(numbers)
}
