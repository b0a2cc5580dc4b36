//! Whether a tree is above level 0.
//!
//! What is known of the names that are bound or defined around a place is one list, which grows where names are bound and is cut back behind the
//! part that sees them. Rows whose last part reaches as far right as possible are walked by a loop, so that any number of them takes no stack.

ghost use Rattle.std.specs.Prelude.{◌≡◌, ◌∷◌, ◌++◌, [], true, false, OnOk};
ghost use Rattle.names_found_levels.specs.Raised.{told, unmarked, bound_by, defined_by, raise, raise_each, raise_operands, raise_step, raise_steps, raise_bounds, raise_fields, raise_changes, raise_arms};
ghost use Rattle.names_least_levels.specs.Levels.{names_rise};
ghost use Rattle.names_least_levels.specs.Rising.{prefix_rises, infix_rises};
ghost use Rattle.reading_trees.specs.TreeViews.{step_view};
ghost use Rattle.names_scopes.specs.Reaching.{reaches_right};

use crate::around::{Around, told};
use crate::known::KnownNames;
use base_core::{NoMemory, Text};
use reading_trees::{
    Arms, Bounds, Changes, Definitions, Expr, Exprs, Fields, InfixOperator, Node, Operands,
    PrefixOperator, Step, Steps,
};
use std::alloc::Global;

/// Whether an operator before its operand is above level 0, whatever that is.
fn prefix_rises(operator: PrefixOperator) -> bool
    ensures { result ≡ prefix_rises operator }
{
    match operator {
        PrefixOperator::Unchanged
        | PrefixOperator::Enabled
        | PrefixOperator::Always
        | PrefixOperator::Eventually => true,
        _ => false,
    }
}

/// Whether a chain of an operator is, whatever its operands are.
fn infix_rises(operator: InfixOperator) -> bool
    ensures { result ≡ infix_rises operator }
{
    matches!(operator, InfixOperator::LeadsTo)
}

/// Whether the tree is above level 0, or something was before it.
#[cycle(raise)]
pub(crate) fn raise(
    alloc: Global,
    names: &KnownNames,
    marks: &[bool],
    around: &mut Around,
    found: &mut bool,
    tree: &Expr,
) -> Result<(), NoMemory>
    ensures found { OnOk result (found.new ≡ raise (names_rise names.now marks.now) around.old found.old tree.now) }
    ensures around { OnOk result (around.new ≡ around.old) }
{
    let depth = around.len();
    let mut tree = tree;
    loop {
        match &*tree.node {
            Node::If(test, then, last) => {
                raise(alloc, names, marks, around, found, test)?;
                raise(alloc, names, marks, around, found, then)?;
                tree = last;
            }
            Node::Quantified(_, bounds, body) => {
                raise_bounds(alloc, names, marks, around, found, bounds)?;
                around.push_bounds(bounds)?;
                tree = body;
            }
            Node::Choose(bound, set, body) => {
                raise(alloc, names, marks, around, found, set)?;
                around.push(bound, false)?;
                tree = body;
            }
            Node::Let(definitions, body) => {
                define(alloc, names, marks, around, definitions)?;
                tree = body;
            }
            _ => {
                raise_row(alloc, names, marks, around, found, tree)?;
                around.cut(depth);
                return Ok(());
            }
        }
    }
}

/// The same of a tree that ends with no part that reaches as far right as possible.
#[cycle(raise)]
fn raise_row(
    alloc: Global,
    names: &KnownNames,
    marks: &[bool],
    around: &mut Around,
    found: &mut bool,
    tree: &Expr,
) -> Result<(), NoMemory>
    requires { reaches_right tree.now ≡ false }
    ensures found { OnOk result (found.new ≡ raise (names_rise names.now marks.now) around.old found.old tree.now) }
    ensures around { OnOk result (around.new ≡ around.old) }
{
    match &*tree.node {
        Node::Number(_) => Ok(()),
        Node::Str(_) => Ok(()),
        Node::Truth(_) => Ok(()),
        Node::Builtin(_) => Ok(()),
        Node::Name(name) => {
            *found = *found || told(names, marks, around, name);
            Ok(())
        }
        Node::Call(name, arguments) | Node::Qualified(name, arguments) => {
            *found = *found || told(names, marks, around, name);
            raise_each(alloc, names, marks, around, found, arguments)
        }
        Node::At => {
            let at_sign = Text::from_text(alloc, "@")?;
            *found = *found || told(names, marks, around, &at_sign);
            Ok(())
        }
        Node::Parenthesized(inner) => raise(alloc, names, marks, around, found, inner),
        Node::Junction(_, items) => raise_each(alloc, names, marks, around, found, items),
        Node::Prefix(operator, operand) => {
            *found = *found || prefix_rises(*operator);
            raise(alloc, names, marks, around, found, operand)
        }
        Node::Infix(operator, operands, last) => {
            *found = *found || infix_rises(*operator);
            raise_operands(alloc, names, marks, around, found, operands)?;
            raise(alloc, names, marks, around, found, last)
        }
        Node::Postfix(base, steps, last) => {
            raise(alloc, names, marks, around, found, base)?;
            raise_steps(alloc, names, marks, around, found, steps)?;
            raise_step(alloc, names, marks, around, found, last)
        }
        Node::SetOf(items) => raise_each(alloc, names, marks, around, found, items),
        Node::Filter(bound, set, test) => {
            raise(alloc, names, marks, around, found, set)?;
            raise_under(alloc, names, marks, around, found, test, bound)
        }
        Node::Map(value, bounds) => {
            raise_bounds(alloc, names, marks, around, found, bounds)?;
            raise_within(alloc, names, marks, around, found, value, bounds)
        }
        Node::Tuple(items) => raise_each(alloc, names, marks, around, found, items),
        Node::Function(bounds, value) => {
            raise_bounds(alloc, names, marks, around, found, bounds)?;
            raise_within(alloc, names, marks, around, found, value, bounds)
        }
        Node::FunctionSet(domain, range) => {
            raise(alloc, names, marks, around, found, domain)?;
            raise(alloc, names, marks, around, found, range)
        }
        Node::Record(fields) => raise_fields(alloc, names, marks, around, found, fields),
        Node::RecordSet(fields) => raise_fields(alloc, names, marks, around, found, fields),
        Node::Except(function, changes) => {
            raise(alloc, names, marks, around, found, function)?;
            raise_changes(alloc, names, marks, around, found, changes)
        }
        Node::Case(arms, None) => raise_arms(alloc, names, marks, around, found, arms),
        Node::Case(arms, Some(other)) => {
            raise_arms(alloc, names, marks, around, found, arms)?;
            raise(alloc, names, marks, around, found, other)
        }
        Node::BoxAction(_, _) => {
            *found = true;
            Ok(())
        }
        Node::AngleAction(_, _) => {
            *found = true;
            Ok(())
        }
        Node::Fairness(_, _) => {
            *found = true;
            Ok(())
        }
        Node::Quantified(_, _, _) => unreachable!(),
        Node::Choose(_, _, _) => unreachable!(),
        Node::If(_, _, _) => unreachable!(),
        Node::Let(_, _) => unreachable!(),
    }
}

/// The same of a tree around which one more name is bound.
#[cycle(raise)]
fn raise_under(
    alloc: Global,
    names: &KnownNames,
    marks: &[bool],
    around: &mut Around,
    found: &mut bool,
    tree: &Expr,
    bound: &Text,
) -> Result<(), NoMemory>
    ensures found { OnOk result (found.new ≡ raise (names_rise names.now marks.now) (around.old ++ unmarked bound.now ∷ []) found.old tree.now) }
    ensures around { OnOk result (around.new ≡ around.old) }
{
    let depth = around.len();
    around.push(bound, false)?;
    raise(alloc, names, marks, around, found, tree)?;
    around.cut(depth);
    Ok(())
}

/// The same of a tree around which the names of bounds are bound.
#[cycle(raise)]
fn raise_within(
    alloc: Global,
    names: &KnownNames,
    marks: &[bool],
    around: &mut Around,
    found: &mut bool,
    tree: &Expr,
    bounds: &Bounds,
) -> Result<(), NoMemory>
    ensures found { OnOk result (found.new ≡ raise (names_rise names.now marks.now) (around.old ++ bound_by bounds.now) found.old tree.now) }
    ensures around { OnOk result (around.new ≡ around.old) }
{
    let depth = around.len();
    around.push_bounds(bounds)?;
    raise(alloc, names, marks, around, found, tree)?;
    around.cut(depth);
    Ok(())
}

#[cycle(raise)]
fn raise_each(
    alloc: Global,
    names: &KnownNames,
    marks: &[bool],
    around: &mut Around,
    found: &mut bool,
    trees: &Exprs,
) -> Result<(), NoMemory>
    ensures found { OnOk result (found.new ≡ raise_each (names_rise names.now marks.now) around.old found.old trees.now) }
    ensures around { OnOk result (around.new ≡ around.old) }
{
    for tree in trees.items() {
        raise(alloc, names, marks, around, found, tree)?;
    }
    Ok(())
}

#[cycle(raise)]
fn raise_operands(
    alloc: Global,
    names: &KnownNames,
    marks: &[bool],
    around: &mut Around,
    found: &mut bool,
    operands: &Operands,
) -> Result<(), NoMemory>
    ensures found { OnOk result (found.new ≡ raise_operands (names_rise names.now marks.now) around.old found.old operands.now) }
    ensures around { OnOk result (around.new ≡ around.old) }
{
    let (first, others) = operands.parts();
    raise(alloc, names, marks, around, found, first)?;
    for operand in others {
        raise(alloc, names, marks, around, found, &operand.value)?;
    }
    Ok(())
}

#[cycle(raise)]
fn raise_step(
    alloc: Global,
    names: &KnownNames,
    marks: &[bool],
    around: &mut Around,
    found: &mut bool,
    step: &Step,
) -> Result<(), NoMemory>
    ensures found { OnOk result (found.new ≡ raise_step (names_rise names.now marks.now) around.old found.old (step_view step.now)) }
    ensures around { OnOk result (around.new ≡ around.old) }
{
    match step {
        Step::Prime => {
            *found = true;
            Ok(())
        }
        Step::Index(items) => raise_each(alloc, names, marks, around, found, items),
        Step::Field(_) => Ok(()),
    }
}

#[cycle(raise)]
fn raise_steps(
    alloc: Global,
    names: &KnownNames,
    marks: &[bool],
    around: &mut Around,
    found: &mut bool,
    steps: &Steps,
) -> Result<(), NoMemory>
    ensures found { OnOk result (found.new ≡ raise_steps (names_rise names.now marks.now) around.old found.old steps.now) }
    ensures around { OnOk result (around.new ≡ around.old) }
{
    for step in steps.items() {
        raise_step(alloc, names, marks, around, found, &step.step)?;
    }
    Ok(())
}

/// The same of the sets of bounds.
#[cycle(raise)]
fn raise_bounds(
    alloc: Global,
    names: &KnownNames,
    marks: &[bool],
    around: &mut Around,
    found: &mut bool,
    bounds: &Bounds,
) -> Result<(), NoMemory>
    ensures found { OnOk result (found.new ≡ raise_bounds (names_rise names.now marks.now) around.old found.old bounds.now) }
    ensures around { OnOk result (around.new ≡ around.old) }
{
    for bound in bounds.items() {
        raise(alloc, names, marks, around, found, &bound.set)?;
    }
    Ok(())
}

#[cycle(raise)]
fn raise_fields(
    alloc: Global,
    names: &KnownNames,
    marks: &[bool],
    around: &mut Around,
    found: &mut bool,
    fields: &Fields,
) -> Result<(), NoMemory>
    ensures found { OnOk result (found.new ≡ raise_fields (names_rise names.now marks.now) around.old found.old fields.now) }
    ensures around { OnOk result (around.new ≡ around.old) }
{
    for field in fields.items() {
        raise(alloc, names, marks, around, found, &field.value)?;
    }
    Ok(())
}

#[cycle(raise)]
fn raise_changes(
    alloc: Global,
    names: &KnownNames,
    marks: &[bool],
    around: &mut Around,
    found: &mut bool,
    changes: &Changes,
) -> Result<(), NoMemory>
    ensures found { OnOk result (found.new ≡ raise_changes (names_rise names.now marks.now) around.old found.old changes.now) }
    ensures around { OnOk result (around.new ≡ around.old) }
{
    let at_sign = Text::from_text(alloc, "@")?;
    for change in changes.items() {
        raise_steps(alloc, names, marks, around, found, &change.path)?;
        raise_under(alloc, names, marks, around, found, &change.value, &at_sign)?;
    }
    Ok(())
}

#[cycle(raise)]
fn raise_arms(
    alloc: Global,
    names: &KnownNames,
    marks: &[bool],
    around: &mut Around,
    found: &mut bool,
    arms: &Arms,
) -> Result<(), NoMemory>
    ensures found { OnOk result (found.new ≡ raise_arms (names_rise names.now marks.now) around.old found.old arms.now) }
    ensures around { OnOk result (around.new ≡ around.old) }
{
    for arm in arms.items() {
        raise(alloc, names, marks, around, found, &arm.test)?;
        raise(alloc, names, marks, around, found, &arm.value)?;
    }
    Ok(())
}

/// Adds the definitions of a LET with what each is; it sees those before it, and in its body its own name has level 0.
#[cycle(raise)]
fn define(
    alloc: Global,
    names: &KnownNames,
    marks: &[bool],
    around: &mut Around,
    definitions: &Definitions,
) -> Result<(), NoMemory>
    ensures { OnOk result (around.new ≡ around.old ++ defined_by (names_rise names.now marks.now) around.old definitions.now) }
{
    for definition in definitions.items() {
        let depth = around.len();
        around.push_own(&definition.name)?;
        around.push_all(definition.params.items())?;
        let mut rises = false;
        raise(alloc, names, marks, around, &mut rises, &definition.body)?;
        around.cut(depth);
        around.push(&definition.name, rises)?;
    }
    Ok(())
}
