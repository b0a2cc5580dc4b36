//! All names that are free in a tree.
//!
//! The names that are bound around a place are one list, which grows where names are bound and is cut back behind the part that sees them. Rows
//! whose last part reaches as far right as possible are walked by a loop, so that any number of them takes no stack.

ghost use Rattle.std.specs.Prelude.{◌≡◌, ◌∷◌, ◌++◌, [], ◌↔◌, ℕ, List, true, false, Contains, IfOk, OnOk};
ghost use Rattle.names_free.specs.Gathered.{add, bound_by, defined_by, gather, gather_each, gather_operands, gather_step, gather_steps, gather_bounds, gather_fields, gather_changes, gather_arms, gather_definitions};
ghost use Rattle.reading_trees.specs.TreeViews.{step_view};
ghost use Rattle.names_scopes.specs.Mentions.{mentions};
ghost use Rattle.names_scopes.specs.Reaching.{reaches_right};

use crate::hidden::Hidden;
use base_core::{Names, NoMemory, Text};
use reading_trees::{
    Arms, Bounds, Changes, Definitions, Expr, Exprs, Fields, Node, Operands, Step, Steps,
};
use std::alloc::Global;

/// The names that occur in the tree where nothing in the tree binds them. One that occurs several times stands there several times.
pub fn free_names(alloc: Global, tree: &Expr) -> Result<Names, NoMemory>
    ensures exact { IfOk result (λ names. (n : List ℕ) → Contains names n ↔ (mentions n tree.now ≡ true)) }
{
    let mut found = Names::new(alloc);
    let mut hidden = Hidden::new(alloc);
    gather(alloc, &mut found, &mut hidden, tree)?;
    Ok(found)
}

/// Adds a name that occurs at a place, unless it is bound around it.
fn add(found: &mut Names, hidden: &Hidden, name: &Text) -> Result<(), NoMemory>
    ensures { OnOk result (found.new ≡ add hidden.now found.old name.now) }
{
    if hidden.hides(name) {
        return Ok(());
    }
    let name = name.copy()?;
    found.push(name)?;
    Ok(())
}

/// Adds the names that occur in the tree and are bound neither in it nor around it.
#[cycle(gather)]
fn gather(
    alloc: Global,
    found: &mut Names,
    hidden: &mut Hidden,
    tree: &Expr,
) -> Result<(), NoMemory>
    ensures found { OnOk result (found.new ≡ gather hidden.old found.old tree.now) }
    ensures hidden { OnOk result (hidden.new ≡ hidden.old) }
{
    let depth = hidden.len();
    let mut tree = tree;
    loop {
        match &*tree.node {
            Node::If(test, then, last) => {
                gather(alloc, found, hidden, test)?;
                gather(alloc, found, hidden, then)?;
                tree = last;
            }
            Node::Quantified(_, bounds, body) => {
                gather_bounds(alloc, found, hidden, bounds)?;
                hidden.push_bounds(bounds)?;
                tree = body;
            }
            Node::Choose(bound, set, body) => {
                gather(alloc, found, hidden, set)?;
                hidden.push(bound)?;
                tree = body;
            }
            Node::Let(definitions, body) => {
                gather_definitions(alloc, found, hidden, definitions)?;
                tree = body;
            }
            _ => {
                gather_row(alloc, found, hidden, tree)?;
                hidden.cut(depth);
                return Ok(());
            }
        }
    }
}

/// Adds them for a tree that ends with no part that reaches as far right as possible.
#[cycle(gather)]
fn gather_row(
    alloc: Global,
    found: &mut Names,
    hidden: &mut Hidden,
    tree: &Expr,
) -> Result<(), NoMemory>
    requires { reaches_right tree.now ≡ false }
    ensures found { OnOk result (found.new ≡ gather hidden.old found.old tree.now) }
    ensures hidden { OnOk result (hidden.new ≡ hidden.old) }
{
    match &*tree.node {
        Node::Number(_) => Ok(()),
        Node::Str(_) => Ok(()),
        Node::Truth(_) => Ok(()),
        Node::Builtin(_) => Ok(()),
        Node::Name(name) => add(found, hidden, name),
        Node::Call(name, arguments) | Node::Qualified(name, arguments) => {
            add(found, hidden, name)?;
            gather_each(alloc, found, hidden, arguments)
        }
        Node::At => {
            let at_sign = Text::from_text(alloc, "@")?;
            add(found, hidden, &at_sign)
        }
        Node::Parenthesized(inner) => gather(alloc, found, hidden, inner),
        Node::Junction(_, items) => gather_each(alloc, found, hidden, items),
        Node::Prefix(_, operand) => gather(alloc, found, hidden, operand),
        Node::Infix(_, operands, last) => {
            gather_operands(alloc, found, hidden, operands)?;
            gather(alloc, found, hidden, last)
        }
        Node::Postfix(base, steps, last) => {
            gather(alloc, found, hidden, base)?;
            gather_steps(alloc, found, hidden, steps)?;
            gather_step(alloc, found, hidden, last)
        }
        Node::SetOf(items) => gather_each(alloc, found, hidden, items),
        Node::Filter(bound, set, test) => {
            gather(alloc, found, hidden, set)?;
            gather_under(alloc, found, hidden, test, bound)
        }
        Node::Map(value, bounds) => {
            gather_bounds(alloc, found, hidden, bounds)?;
            gather_within(alloc, found, hidden, value, bounds)
        }
        Node::Tuple(items) => gather_each(alloc, found, hidden, items),
        Node::Function(bounds, value) => {
            gather_bounds(alloc, found, hidden, bounds)?;
            gather_within(alloc, found, hidden, value, bounds)
        }
        Node::FunctionSet(domain, range) => {
            gather(alloc, found, hidden, domain)?;
            gather(alloc, found, hidden, range)
        }
        Node::Record(fields) => gather_fields(alloc, found, hidden, fields),
        Node::RecordSet(fields) => gather_fields(alloc, found, hidden, fields),
        Node::Except(function, changes) => {
            gather(alloc, found, hidden, function)?;
            gather_changes(alloc, found, hidden, changes)
        }
        Node::Case(arms, None) => gather_arms(alloc, found, hidden, arms),
        Node::Case(arms, Some(other)) => {
            gather_arms(alloc, found, hidden, arms)?;
            gather(alloc, found, hidden, other)
        }
        Node::BoxAction(action, subscript) => {
            gather(alloc, found, hidden, action)?;
            gather(alloc, found, hidden, subscript)
        }
        Node::AngleAction(action, subscript) => {
            gather(alloc, found, hidden, action)?;
            gather(alloc, found, hidden, subscript)
        }
        Node::Fairness(subscript, action) => {
            gather(alloc, found, hidden, subscript)?;
            gather(alloc, found, hidden, action)
        }
        Node::Quantified(_, _, _) => unreachable!(),
        Node::Choose(_, _, _) => unreachable!(),
        Node::If(_, _, _) => unreachable!(),
        Node::Let(_, _) => unreachable!(),
    }
}

/// Adds them for a tree around which one more name is bound.
#[cycle(gather)]
fn gather_under(
    alloc: Global,
    found: &mut Names,
    hidden: &mut Hidden,
    tree: &Expr,
    bound: &Text,
) -> Result<(), NoMemory>
    ensures found { OnOk result (found.new ≡ gather (hidden.old ++ bound.now ∷ []) found.old tree.now) }
    ensures hidden { OnOk result (hidden.new ≡ hidden.old) }
{
    let depth = hidden.len();
    hidden.push(bound)?;
    gather(alloc, found, hidden, tree)?;
    hidden.cut(depth);
    Ok(())
}

/// Adds them for a tree around which the names of bounds are bound.
#[cycle(gather)]
fn gather_within(
    alloc: Global,
    found: &mut Names,
    hidden: &mut Hidden,
    tree: &Expr,
    bounds: &Bounds,
) -> Result<(), NoMemory>
    ensures found { OnOk result (found.new ≡ gather (hidden.old ++ bound_by bounds.now) found.old tree.now) }
    ensures hidden { OnOk result (hidden.new ≡ hidden.old) }
{
    let depth = hidden.len();
    hidden.push_bounds(bounds)?;
    gather(alloc, found, hidden, tree)?;
    hidden.cut(depth);
    Ok(())
}

#[cycle(gather)]
fn gather_each(
    alloc: Global,
    found: &mut Names,
    hidden: &mut Hidden,
    trees: &Exprs,
) -> Result<(), NoMemory>
    ensures found { OnOk result (found.new ≡ gather_each hidden.old found.old trees.now) }
    ensures hidden { OnOk result (hidden.new ≡ hidden.old) }
{
    for tree in trees.items() {
        gather(alloc, found, hidden, tree)?;
    }
    Ok(())
}

#[cycle(gather)]
fn gather_operands(
    alloc: Global,
    found: &mut Names,
    hidden: &mut Hidden,
    operands: &Operands,
) -> Result<(), NoMemory>
    ensures found { OnOk result (found.new ≡ gather_operands hidden.old found.old operands.now) }
    ensures hidden { OnOk result (hidden.new ≡ hidden.old) }
{
    let (first, others) = operands.parts();
    gather(alloc, found, hidden, first)?;
    for operand in others {
        gather(alloc, found, hidden, &operand.value)?;
    }
    Ok(())
}

#[cycle(gather)]
fn gather_step(
    alloc: Global,
    found: &mut Names,
    hidden: &mut Hidden,
    step: &Step,
) -> Result<(), NoMemory>
    ensures found { OnOk result (found.new ≡ gather_step hidden.old found.old (step_view step.now)) }
    ensures hidden { OnOk result (hidden.new ≡ hidden.old) }
{
    match step {
        Step::Prime => Ok(()),
        Step::Index(items) => gather_each(alloc, found, hidden, items),
        Step::Field(_) => Ok(()),
    }
}

#[cycle(gather)]
fn gather_steps(
    alloc: Global,
    found: &mut Names,
    hidden: &mut Hidden,
    steps: &Steps,
) -> Result<(), NoMemory>
    ensures found { OnOk result (found.new ≡ gather_steps hidden.old found.old steps.now) }
    ensures hidden { OnOk result (hidden.new ≡ hidden.old) }
{
    for step in steps.items() {
        gather_step(alloc, found, hidden, &step.step)?;
    }
    Ok(())
}

/// Adds them for the sets of bounds.
#[cycle(gather)]
fn gather_bounds(
    alloc: Global,
    found: &mut Names,
    hidden: &mut Hidden,
    bounds: &Bounds,
) -> Result<(), NoMemory>
    ensures found { OnOk result (found.new ≡ gather_bounds hidden.old found.old bounds.now) }
    ensures hidden { OnOk result (hidden.new ≡ hidden.old) }
{
    for bound in bounds.items() {
        gather(alloc, found, hidden, &bound.set)?;
    }
    Ok(())
}

#[cycle(gather)]
fn gather_fields(
    alloc: Global,
    found: &mut Names,
    hidden: &mut Hidden,
    fields: &Fields,
) -> Result<(), NoMemory>
    ensures found { OnOk result (found.new ≡ gather_fields hidden.old found.old fields.now) }
    ensures hidden { OnOk result (hidden.new ≡ hidden.old) }
{
    for field in fields.items() {
        gather(alloc, found, hidden, &field.value)?;
    }
    Ok(())
}

#[cycle(gather)]
fn gather_changes(
    alloc: Global,
    found: &mut Names,
    hidden: &mut Hidden,
    changes: &Changes,
) -> Result<(), NoMemory>
    ensures found { OnOk result (found.new ≡ gather_changes hidden.old found.old changes.now) }
    ensures hidden { OnOk result (hidden.new ≡ hidden.old) }
{
    let at_sign = Text::from_text(alloc, "@")?;
    for change in changes.items() {
        gather_steps(alloc, found, hidden, &change.path)?;
        gather_under(alloc, found, hidden, &change.value, &at_sign)?;
    }
    Ok(())
}

#[cycle(gather)]
fn gather_arms(
    alloc: Global,
    found: &mut Names,
    hidden: &mut Hidden,
    arms: &Arms,
) -> Result<(), NoMemory>
    ensures found { OnOk result (found.new ≡ gather_arms hidden.old found.old arms.now) }
    ensures hidden { OnOk result (hidden.new ≡ hidden.old) }
{
    for arm in arms.items() {
        gather(alloc, found, hidden, &arm.test)?;
        gather(alloc, found, hidden, &arm.value)?;
    }
    Ok(())
}

/// Adds them for definitions of a LET, each of which sees itself and those before it. Behind it the definitions are hidden.
#[cycle(gather)]
fn gather_definitions(
    alloc: Global,
    found: &mut Names,
    hidden: &mut Hidden,
    definitions: &Definitions,
) -> Result<(), NoMemory>
    ensures found { OnOk result (found.new ≡ gather_definitions hidden.old found.old definitions.now) }
    ensures hidden { OnOk result (hidden.new ≡ hidden.old ++ defined_by definitions.now) }
{
    for definition in definitions.items() {
        hidden.push(&definition.name)?;
        let depth = hidden.len();
        hidden.push_all(definition.params.items())?;
        gather(alloc, found, hidden, &definition.body)?;
        hidden.cut(depth);
    }
    Ok(())
}
