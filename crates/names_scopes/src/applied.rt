//! Functions that apply themselves.

ghost use Rattle.std.specs.Prelude.{◌≡◌, false};
ghost use Rattle.std.specs.Str.{bytes_eq};
ghost use Rattle.reading_trees.specs.TreeViews.{step_view};
ghost use Rattle.names_scopes.specs.Applied.{applies, bare, bare_each, bare_operands, bare_step, bare_steps, bare_bounds, bare_fields, bare_changes, bare_arms, bare_definitions, begins_with_index, counts_base, is_index};
ghost use Rattle.names_scopes.specs.FirstOperands.{first_of};
ghost use Rattle.names_scopes.specs.Reaching.{reaches_right};

use crate::free_names::{binds, defines, is_at_sign, is_one_of, mentions_bounds};
use crate::operands::others_of;
use crate::reach::reaches_right;
use base_core::Text;
use reading_trees::{
    Arms, Bounds, Changes, Definitions, Expr, Exprs, Fields, Node, Operands, Step, Steps,
};

/// Whether a function `N[B] == E`, given as `[B |-> E]`, only applies itself: its sets do not use the name, and its body uses it in no other way.
pub fn applies(name: &Text, tree: &Expr) -> bool
    ensures { result ≡ applies name.now tree.now }
{
    match &*tree.node {
        Node::Function(bounds, value) => {
            if mentions_bounds(name, bounds) {
                return false;
            }
            if binds(bounds, name) {
                return true;
            }
            !bare(name, value)
        }
        _ => false,
    }
}

fn is_index(step: &Step) -> bool
    ensures { result ≡ is_index (step_view step.now) }
{
    match step {
        Step::Prime => false,
        Step::Index(_) => true,
        Step::Field(_) => false,
    }
}

/// Whether the first of steps, the last of which stands apart, is an index.
fn begins_with_index(steps: &Steps, last: &Step) -> bool
    ensures { result ≡ begins_with_index steps.now (step_view last.now) }
{
    match steps.items().first() {
        Some(first) => is_index(&first.step),
        None => is_index(last),
    }
}

/// Whether that counts of which steps are taken: not where it is a name, or a name of an instance as `I!f`, that is applied.
fn counts_base(base: &Expr, steps: &Steps, last: &Step) -> bool
    ensures { result ≡ counts_base base.now steps.now (step_view last.now) }
{
    match &*base.node {
        Node::Name(_) => !begins_with_index(steps, last),
        Node::Qualified(_, arguments) => {
            !(arguments.is_empty() && begins_with_index(steps, last))
        }
        _ => true,
    }
}

/// Whether the name is free in the tree in another way than as the function of an application.
///
/// A loop over the rows whose last part may hold any number of rows like it: such a row takes no stack.
#[cycle(bare)]
fn bare(name: &Text, tree: &Expr) -> bool
    ensures { result ≡ bare name.now tree.now }
{
    let mut tree = tree;
    loop {
        if !reaches_right(tree) {
            return bare_row(name, tree);
        }
        match &*tree.node {
            Node::If(test, then, last) => {
                if bare(name, test) {
                    return true;
                }
                if bare(name, then) {
                    return true;
                }
                tree = last;
            }
            Node::Quantified(_, bounds, body) => {
                if bare_bounds(name, bounds) {
                    return true;
                }
                if binds(bounds, name) {
                    return false;
                }
                tree = body;
            }
            Node::Choose(bound, set, body) => {
                if bare(name, set) {
                    return true;
                }
                if *bound == *name {
                    return false;
                }
                tree = body;
            }
            Node::Let(definitions, body) => {
                if bare_definitions(name, definitions) {
                    return true;
                }
                if defines(definitions, name) {
                    return false;
                }
                tree = body;
            }
            _ => unreachable!(),
        }
    }
}

/// The same of a tree that ends with no part that reaches as far right as possible.
#[cycle(bare)]
fn bare_row(name: &Text, tree: &Expr) -> bool
    requires { reaches_right tree.now ≡ false }
    ensures { result ≡ bare name.now tree.now }
{
    match &*tree.node {
        Node::Number(_) => false,
        Node::Str(_) => false,
        Node::Truth(_) => false,
        Node::Builtin(_) => false,
        Node::Name(other) => *other == *name,
        Node::Call(other, arguments) | Node::Qualified(other, arguments) => {
            if *other == *name {
                return true;
            }
            bare_each(name, arguments)
        }
        Node::At => is_at_sign(name),
        Node::Parenthesized(inner) => bare(name, inner),
        Node::Junction(_, items) => bare_each(name, items),
        Node::Prefix(_, operand) => bare(name, operand),
        Node::Infix(_, operands, last) => {
            if bare_operands(name, operands) {
                return true;
            }
            bare(name, last)
        }
        Node::Postfix(base, steps, last) => {
            if counts_base(base, steps, last) {
                if bare(name, base) {
                    return true;
                }
            }
            if bare_steps(name, steps) {
                return true;
            }
            bare_step(name, last)
        }
        Node::SetOf(items) => bare_each(name, items),
        Node::Filter(bound, set, test) => {
            if bare(name, set) {
                return true;
            }
            if *bound == *name {
                return false;
            }
            bare(name, test)
        }
        Node::Map(value, bounds) => {
            if !binds(bounds, name) {
                if bare(name, value) {
                    return true;
                }
            }
            bare_bounds(name, bounds)
        }
        Node::Tuple(items) => bare_each(name, items),
        Node::Function(bounds, value) => {
            if bare_bounds(name, bounds) {
                return true;
            }
            if binds(bounds, name) {
                return false;
            }
            bare(name, value)
        }
        Node::FunctionSet(domain, range) => {
            if bare(name, domain) {
                return true;
            }
            bare(name, range)
        }
        Node::Record(fields) => bare_fields(name, fields),
        Node::RecordSet(fields) => bare_fields(name, fields),
        Node::Except(function, changes) => {
            if bare(name, function) {
                return true;
            }
            bare_changes(name, changes)
        }
        Node::Quantified(_, _, _) => unreachable!(),
        Node::Choose(_, _, _) => unreachable!(),
        Node::If(_, _, _) => unreachable!(),
        Node::Case(arms, None) => bare_arms(name, arms),
        Node::Case(arms, Some(other)) => {
            if bare_arms(name, arms) {
                return true;
            }
            bare(name, other)
        }
        Node::Let(_, _) => unreachable!(),
        Node::BoxAction(action, subscript) => {
            if bare(name, action) {
                return true;
            }
            bare(name, subscript)
        }
        Node::AngleAction(action, subscript) => {
            if bare(name, action) {
                return true;
            }
            bare(name, subscript)
        }
        Node::Fairness(subscript, action) => {
            if bare(name, subscript) {
                return true;
            }
            bare(name, action)
        }
    }
}

#[cycle(bare)]
fn bare_each(name: &Text, trees: &Exprs) -> bool
    ensures { result ≡ bare_each name.now trees.now }
{
    for tree in trees.items() {
        if bare(name, tree) {
            return true;
        }
    }
    false
}

#[cycle(bare)]
fn bare_operands(name: &Text, operands: &Operands) -> bool
    ensures { result ≡ bare_operands name.now operands.now }
{
    let (first, _) = operands.parts();
    if bare(name, first) {
        return true;
    }
    bare_others(name, operands)
}

/// Whether the name occurs so in operands, in the first of which it does not.
#[cycle(bare)]
fn bare_others(name: &Text, operands: &Operands) -> bool
    requires { bare name.now (first_of operands.now) ≡ false }
    ensures { result ≡ bare_operands name.now operands.now }
{
    for operand in others_of(operands) {
        if bare(name, &operand.value) {
            return true;
        }
    }
    false
}

#[cycle(bare)]
fn bare_step(name: &Text, step: &Step) -> bool
    ensures { result ≡ bare_step name.now (step_view step.now) }
{
    match step {
        Step::Prime => false,
        Step::Index(items) => bare_each(name, items),
        Step::Field(_) => false,
    }
}

#[cycle(bare)]
fn bare_steps(name: &Text, steps: &Steps) -> bool
    ensures { result ≡ bare_steps name.now steps.now }
{
    for step in steps.items() {
        if bare_step(name, &step.step) {
            return true;
        }
    }
    false
}

#[cycle(bare)]
fn bare_bounds(name: &Text, bounds: &Bounds) -> bool
    ensures { result ≡ bare_bounds name.now bounds.now }
{
    for bound in bounds.items() {
        if bare(name, &bound.set) {
            return true;
        }
    }
    false
}

#[cycle(bare)]
fn bare_fields(name: &Text, fields: &Fields) -> bool
    ensures { result ≡ bare_fields name.now fields.now }
{
    for field in fields.items() {
        if bare(name, &field.value) {
            return true;
        }
    }
    false
}

#[cycle(bare)]
fn bare_changes(name: &Text, changes: &Changes) -> bool
    ensures { result ≡ bare_changes name.now changes.now }
{
    for change in changes.items() {
        if bare_steps(name, &change.path) {
            return true;
        }
        if is_at_sign(name) {
            continue;
        }
        if bare(name, &change.value) {
            return true;
        }
    }
    false
}

#[cycle(bare)]
fn bare_arms(name: &Text, arms: &Arms) -> bool
    ensures { result ≡ bare_arms name.now arms.now }
{
    for arm in arms.items() {
        if bare(name, &arm.test) {
            return true;
        }
        if bare(name, &arm.value) {
            return true;
        }
    }
    false
}

/// Whether the name occurs so in definitions of a LET, each of which sees itself and those before it.
#[cycle(bare)]
fn bare_definitions(name: &Text, definitions: &Definitions) -> bool
    ensures { result ≡ bare_definitions name.now definitions.now }
{
    for definition in definitions.items() {
        if definition.name == *name {
            return false;
        }
        if is_one_of(name, definition.params.items()) {
            continue;
        }
        if bare(name, &definition.body) {
            return true;
        }
    }
    false
}
