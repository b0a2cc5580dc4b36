//! Names that occur in trees where nothing in them binds them.

ghost use Rattle.std.specs.Prelude.{◌≡◌, false};
ghost use Rattle.std.specs.Str.{bytes_eq};
ghost use Rattle.reading_trees.specs.TreeViews.{step_view};
ghost use Rattle.names_scopes.specs.FirstOperands.{first_of};
ghost use Rattle.names_scopes.specs.Mentions.{is_one_of, binds, defines, mentions, mentions_each, mentions_operands, mentions_step, mentions_steps, mentions_bounds, mentions_fields, mentions_changes, mentions_arms, mentions_definitions};
ghost use Rattle.names_scopes.specs.Reaching.{reaches_right};
ghost use Rattle.names_scopes.specs.Scopes.{at_sign};

use crate::operands::others_of;
use crate::reach::reaches_right;
use base_core::Text;
use reading_trees::{
    Arms, Bounds, Changes, Definitions, Expr, Exprs, Fields, Node, Operands, Step, Steps,
};

/// Whether a name is one of these.
pub fn is_one_of(name: &Text, names: &[Text]) -> bool
    ensures { result ≡ is_one_of name.now names.now }
{
    for other in names {
        if *other == *name {
            return true;
        }
    }
    false
}

/// Whether bounds bind the name.
pub(crate) fn binds(bounds: &Bounds, name: &Text) -> bool
    ensures { result ≡ binds bounds.now name.now }
{
    for bound in bounds.items() {
        if is_one_of(name, bound.names.items()) {
            return true;
        }
    }
    false
}

/// Whether one of the definitions has that name.
pub(crate) fn defines(definitions: &Definitions, name: &Text) -> bool
    ensures { result ≡ defines definitions.now name.now }
{
    for definition in definitions.items() {
        if definition.name == *name {
            return true;
        }
    }
    false
}

/// Whether the name is the character `@`, which stands for an old value in the new value of a change.
pub(crate) fn is_at_sign(name: &Text) -> bool
    ensures { result ≡ bytes_eq at_sign name.now }
{
    "@" == name.as_str()
}

/// Whether the name occurs in the tree where nothing in the tree binds it.
///
/// A loop over the rows whose last part may hold any number of rows like it: such a row takes no stack.
#[cycle(mentions)]
pub fn mentions(name: &Text, tree: &Expr) -> bool
    ensures { result ≡ mentions name.now tree.now }
{
    let mut tree = tree;
    loop {
        if !reaches_right(tree) {
            return mentions_row(name, tree);
        }
        match &*tree.node {
            Node::If(test, then, last) => {
                if mentions(name, test) {
                    return true;
                }
                if mentions(name, then) {
                    return true;
                }
                tree = last;
            }
            Node::Quantified(_, bounds, body) => {
                if mentions_bounds(name, bounds) {
                    return true;
                }
                if binds(bounds, name) {
                    return false;
                }
                tree = body;
            }
            Node::Choose(bound, set, body) => {
                if mentions(name, set) {
                    return true;
                }
                if *bound == *name {
                    return false;
                }
                tree = body;
            }
            Node::Let(definitions, body) => {
                if mentions_definitions(name, definitions) {
                    return true;
                }
                if defines(definitions, name) {
                    return false;
                }
                tree = body;
            }
            _ => unreachable!(),
        }
    }
}

/// Whether the name occurs so in a tree that ends with no part that reaches as far right as possible.
#[cycle(mentions)]
fn mentions_row(name: &Text, tree: &Expr) -> bool
    requires { reaches_right tree.now ≡ false }
    ensures { result ≡ mentions name.now tree.now }
{
    match &*tree.node {
        Node::Number(_) => false,
        Node::Str(_) => false,
        Node::Truth(_) => false,
        Node::Builtin(_) => false,
        Node::Name(other) => *other == *name,
        Node::Call(other, arguments) | Node::Qualified(other, arguments) => {
            if *other == *name {
                return true;
            }
            mentions_each(name, arguments)
        }
        Node::At => is_at_sign(name),
        Node::Parenthesized(inner) => mentions(name, inner),
        Node::Junction(_, items) => mentions_each(name, items),
        Node::Prefix(_, operand) => mentions(name, operand),
        Node::Infix(_, operands, last) => {
            if mentions_operands(name, operands) {
                return true;
            }
            mentions(name, last)
        }
        Node::Postfix(base, steps, last) => {
            if mentions(name, base) {
                return true;
            }
            if mentions_steps(name, steps) {
                return true;
            }
            mentions_step(name, last)
        }
        Node::SetOf(items) => mentions_each(name, items),
        Node::Filter(bound, set, test) => {
            if mentions(name, set) {
                return true;
            }
            if *bound == *name {
                return false;
            }
            mentions(name, test)
        }
        Node::Map(value, bounds) => {
            if !binds(bounds, name) {
                if mentions(name, value) {
                    return true;
                }
            }
            mentions_bounds(name, bounds)
        }
        Node::Tuple(items) => mentions_each(name, items),
        Node::Function(bounds, value) => {
            if mentions_bounds(name, bounds) {
                return true;
            }
            if binds(bounds, name) {
                return false;
            }
            mentions(name, value)
        }
        Node::FunctionSet(domain, range) => {
            if mentions(name, domain) {
                return true;
            }
            mentions(name, range)
        }
        Node::Record(fields) => mentions_fields(name, fields),
        Node::RecordSet(fields) => mentions_fields(name, fields),
        Node::Except(function, changes) => {
            if mentions(name, function) {
                return true;
            }
            mentions_changes(name, changes)
        }
        Node::Quantified(_, _, _) => unreachable!(),
        Node::Choose(_, _, _) => unreachable!(),
        Node::If(_, _, _) => unreachable!(),
        Node::Case(arms, None) => mentions_arms(name, arms),
        Node::Case(arms, Some(other)) => {
            if mentions_arms(name, arms) {
                return true;
            }
            mentions(name, other)
        }
        Node::Let(_, _) => unreachable!(),
        Node::BoxAction(action, subscript) => {
            if mentions(name, action) {
                return true;
            }
            mentions(name, subscript)
        }
        Node::AngleAction(action, subscript) => {
            if mentions(name, action) {
                return true;
            }
            mentions(name, subscript)
        }
        Node::Fairness(subscript, action) => {
            if mentions(name, subscript) {
                return true;
            }
            mentions(name, action)
        }
    }
}

#[cycle(mentions)]
fn mentions_each(name: &Text, trees: &Exprs) -> bool
    ensures { result ≡ mentions_each name.now trees.now }
{
    for tree in trees.items() {
        if mentions(name, tree) {
            return true;
        }
    }
    false
}

#[cycle(mentions)]
fn mentions_operands(name: &Text, operands: &Operands) -> bool
    ensures { result ≡ mentions_operands name.now operands.now }
{
    let (first, _) = operands.parts();
    if mentions(name, first) {
        return true;
    }
    mentions_others(name, operands)
}

/// Whether the name occurs so in operands, in the first of which it does not.
#[cycle(mentions)]
fn mentions_others(name: &Text, operands: &Operands) -> bool
    requires { mentions name.now (first_of operands.now) ≡ false }
    ensures { result ≡ mentions_operands name.now operands.now }
{
    for operand in others_of(operands) {
        if mentions(name, &operand.value) {
            return true;
        }
    }
    false
}

#[cycle(mentions)]
fn mentions_step(name: &Text, step: &Step) -> bool
    ensures { result ≡ mentions_step name.now (step_view step.now) }
{
    match step {
        Step::Prime => false,
        Step::Index(items) => mentions_each(name, items),
        Step::Field(_) => false,
    }
}

#[cycle(mentions)]
fn mentions_steps(name: &Text, steps: &Steps) -> bool
    ensures { result ≡ mentions_steps name.now steps.now }
{
    for step in steps.items() {
        if mentions_step(name, &step.step) {
            return true;
        }
    }
    false
}

#[cycle(mentions)]
pub(crate) fn mentions_bounds(name: &Text, bounds: &Bounds) -> bool
    ensures { result ≡ mentions_bounds name.now bounds.now }
{
    for bound in bounds.items() {
        if mentions(name, &bound.set) {
            return true;
        }
    }
    false
}

#[cycle(mentions)]
fn mentions_fields(name: &Text, fields: &Fields) -> bool
    ensures { result ≡ mentions_fields name.now fields.now }
{
    for field in fields.items() {
        if mentions(name, &field.value) {
            return true;
        }
    }
    false
}

#[cycle(mentions)]
fn mentions_changes(name: &Text, changes: &Changes) -> bool
    ensures { result ≡ mentions_changes name.now changes.now }
{
    for change in changes.items() {
        if mentions_steps(name, &change.path) {
            return true;
        }
        if is_at_sign(name) {
            continue;
        }
        if mentions(name, &change.value) {
            return true;
        }
    }
    false
}

#[cycle(mentions)]
fn mentions_arms(name: &Text, arms: &Arms) -> bool
    ensures { result ≡ mentions_arms name.now arms.now }
{
    for arm in arms.items() {
        if mentions(name, &arm.test) {
            return true;
        }
        if mentions(name, &arm.value) {
            return true;
        }
    }
    false
}

/// Whether the name occurs so in definitions of a LET, each of which sees itself and those before it.
#[cycle(mentions)]
fn mentions_definitions(name: &Text, definitions: &Definitions) -> bool
    ensures { result ≡ mentions_definitions name.now definitions.now }
{
    for definition in definitions.items() {
        if definition.name == *name {
            return false;
        }
        if is_one_of(name, definition.params.items()) {
            continue;
        }
        if mentions(name, &definition.body) {
            return true;
        }
    }
    false
}
