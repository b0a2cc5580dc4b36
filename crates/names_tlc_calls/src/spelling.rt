//! The trees in which calls of TLC's operators are spelled out.
//!
//! The names that are bound around a place are one list, which grows where names are bound and is cut back behind the part that sees them. Rows whose last
//! part reaches as far right as possible are walked by a loop, so that any number of them takes no stack.

ghost use Rattle.std.specs.Prelude.{◌≡◌, ◌∷◌, ◌++◌, [], false, IfOk, OnOk};
ghost use Rattle.reading_trees.specs.Trees.{Call};
ghost use Rattle.reading_trees.specs.TreeViews.{step_view};
ghost use Rattle.names_scopes.specs.Mentions.{is_one_of};
ghost use Rattle.names_tlc_calls.specs.Spelled.{bound_by, called, defined_by, spelled, spelled_each, spelled_operands, spelled_step, spelled_steps, spelled_bounds, spelled_fields, spelled_changes, spelled_arms, spelled_definitions};
ghost use Rattle.names_scopes.specs.Reaching.{reaches_right};

use crate::bound_names::BoundNames;
use crate::calls::{with_one, with_two};
use crate::rows::{Opening, Row, closed_all};
use base_core::{Names, NoMemory, Place, Text};
use reading_trees::{
    Arm, Arms, Bound, Bounds, Change, Changes, Definition, Definitions, Expr, Exprs, Field, Fields,
    Node, Operand, Operands, Step, StepAt, Steps,
};
use std::alloc::Global;

/// Equal names.
pub(crate) fn copy_names(alloc: Global, names: &Names) -> Result<Names, NoMemory>
    ensures { IfOk result (λ copy. copy ≡ names.now) }
{
    let mut copy = Names::new(alloc);
    for name in names.items() {
        copy.push(name.copy()?)?;
    }
    Ok(copy)
}

/// The tree in which such calls are spelled out, where these names are bound around it or are the program's own.
#[cycle(spelled)]
pub(crate) fn spelled(alloc: Global, bound: &mut BoundNames, tree: &Expr) -> Result<Expr, NoMemory>
    ensures spelled { IfOk result (λ e. e ≡ spelled bound.old tree.now) }
    ensures bound { OnOk result (bound.new ≡ bound.old) }
{
    let depth = bound.len();
    let mut rows = Vec::new(alloc);
    let mut rest = tree;
    loop {
        let at = rest.at;
        match &*rest.node {
            Node::If(test, then, last) => {
                let spelled_test = spelled(alloc, bound, test)?;
                let spelled_then = spelled(alloc, bound, then)?;
                let opening = Opening::If(spelled_test, spelled_then);
                rows.push(Row { at, opening })?;
                rest = last;
            }
            Node::Quantified(quantifier, bounds, body) => {
                let sets = spelled_bounds(alloc, bound, bounds)?;
                bound.push_bounds(bounds)?;
                let opening = Opening::Quantified(*quantifier, sets);
                rows.push(Row { at, opening })?;
                rest = body;
            }
            Node::Choose(name, set, body) => {
                let spelled_set = spelled(alloc, bound, set)?;
                bound.push(name)?;
                let same_name = name.copy()?;
                let opening = Opening::Choose(same_name, spelled_set);
                rows.push(Row { at, opening })?;
                rest = body;
            }
            Node::Let(definitions, body) => {
                let spelled = spelled_definitions(alloc, bound, definitions)?;
                let opening = Opening::Let(spelled);
                rows.push(Row { at, opening })?;
                rest = body;
            }
            _ => {
                let last = spelled_row(alloc, bound, rest)?;
                bound.cut(depth);
                return closed_all(alloc, rows, last);
            }
        }
    }
}

/// The same of a tree that ends with no part that reaches as far right as possible.
#[cycle(spelled)]
fn spelled_row(alloc: Global, bound: &mut BoundNames, tree: &Expr) -> Result<Expr, NoMemory>
    requires { reaches_right tree.now ≡ false }
    ensures spelled { IfOk result (λ e. e ≡ spelled bound.old tree.now) }
    ensures bound { OnOk result (bound.new ≡ bound.old) }
{
    let at = tree.at;
    match &*tree.node {
        Node::Number(number) => Expr::new(alloc, at, Node::Number(*number)),
        Node::Str(text) => Expr::new(alloc, at, Node::Str(text.copy()?)),
        Node::Truth(truth) => Expr::new(alloc, at, Node::Truth(*truth)),
        Node::Builtin(set) => Expr::new(alloc, at, Node::Builtin(*set)),
        Node::Name(name) => Expr::new(alloc, at, Node::Name(name.copy()?)),
        Node::Call(name, arguments) => spelled_call(alloc, bound, at, name, arguments),
        Node::Qualified(name, arguments) => {
            let arguments = spelled_each(alloc, bound, arguments)?;
            Expr::new(alloc, at, Node::Qualified(name.copy()?, arguments))
        }
        Node::At => Expr::new(alloc, at, Node::At),
        Node::Parenthesized(inner) => {
            let inner = spelled(alloc, bound, inner)?;
            Expr::new(alloc, at, Node::Parenthesized(inner))
        }
        Node::Junction(bullet, items) => {
            let items = spelled_each(alloc, bound, items)?;
            Expr::new(alloc, at, Node::Junction(*bullet, items))
        }
        Node::Prefix(operator, operand) => {
            let operand = spelled(alloc, bound, operand)?;
            Expr::new(alloc, at, Node::Prefix(*operator, operand))
        }
        Node::Infix(operator, operands, last) => {
            let operands = spelled_operands(alloc, bound, operands)?;
            let last = spelled(alloc, bound, last)?;
            Expr::new(alloc, at, Node::Infix(*operator, operands, last))
        }
        Node::Postfix(base, steps, last) => {
            let base = spelled(alloc, bound, base)?;
            let steps = spelled_steps(alloc, bound, steps)?;
            let last = spelled_step(alloc, bound, last)?;
            Expr::new(alloc, at, Node::Postfix(base, steps, last))
        }
        Node::SetOf(items) => {
            let items = spelled_each(alloc, bound, items)?;
            Expr::new(alloc, at, Node::SetOf(items))
        }
        Node::Filter(name, set, test) => {
            let set = spelled(alloc, bound, set)?;
            let test = spelled_under(alloc, bound, test, name)?;
            Expr::new(alloc, at, Node::Filter(name.copy()?, set, test))
        }
        Node::Map(value, bounds) => {
            let value = spelled_within(alloc, bound, value, bounds)?;
            let bounds = spelled_bounds(alloc, bound, bounds)?;
            Expr::new(alloc, at, Node::Map(value, bounds))
        }
        Node::Tuple(items) => {
            let items = spelled_each(alloc, bound, items)?;
            Expr::new(alloc, at, Node::Tuple(items))
        }
        Node::Function(bounds, value) => {
            let value = spelled_within(alloc, bound, value, bounds)?;
            let bounds = spelled_bounds(alloc, bound, bounds)?;
            Expr::new(alloc, at, Node::Function(bounds, value))
        }
        Node::FunctionSet(domain, range) => {
            let domain = spelled(alloc, bound, domain)?;
            let range = spelled(alloc, bound, range)?;
            Expr::new(alloc, at, Node::FunctionSet(domain, range))
        }
        Node::Record(fields) => {
            let fields = spelled_fields(alloc, bound, fields)?;
            Expr::new(alloc, at, Node::Record(fields))
        }
        Node::RecordSet(fields) => {
            let fields = spelled_fields(alloc, bound, fields)?;
            Expr::new(alloc, at, Node::RecordSet(fields))
        }
        Node::Except(function, changes) => {
            let function = spelled(alloc, bound, function)?;
            let changes = spelled_changes(alloc, bound, changes)?;
            Expr::new(alloc, at, Node::Except(function, changes))
        }
        Node::Case(arms, None) => {
            let arms = spelled_arms(alloc, bound, arms)?;
            Expr::new(alloc, at, Node::Case(arms, None))
        }
        Node::Case(arms, Some(other)) => {
            let arms = spelled_arms(alloc, bound, arms)?;
            let other = spelled(alloc, bound, other)?;
            Expr::new(alloc, at, Node::Case(arms, Some(other)))
        }
        Node::BoxAction(action, subscript) => {
            let action = spelled(alloc, bound, action)?;
            let subscript = spelled(alloc, bound, subscript)?;
            Expr::new(alloc, at, Node::BoxAction(action, subscript))
        }
        Node::AngleAction(action, subscript) => {
            let action = spelled(alloc, bound, action)?;
            let subscript = spelled(alloc, bound, subscript)?;
            Expr::new(alloc, at, Node::AngleAction(action, subscript))
        }
        Node::Fairness(subscript, action) => {
            let subscript = spelled(alloc, bound, subscript)?;
            let action = spelled(alloc, bound, action)?;
            Expr::new(alloc, at, Node::Fairness(subscript, action))
        }
        Node::Quantified(_, _, _) => unreachable!(),
        Node::Choose(_, _, _) => unreachable!(),
        Node::If(_, _, _) => unreachable!(),
        Node::Let(_, _) => unreachable!(),
    }
}

/// The same of a call.
#[cycle(spelled)]
fn spelled_call(
    alloc: Global,
    bound: &mut BoundNames,
    at: Place,
    name: &Text,
    arguments: &Exprs,
) -> Result<Expr, NoMemory>
    ensures spelled { IfOk result (λ e. e ≡ called (is_one_of name.now bound.old) at name.now (spelled_each bound.old arguments.now)) }
    ensures bound { OnOk result (bound.new ≡ bound.old) }
{
    if bound.bind(name) {
        return same_call(alloc, bound, at, name, arguments);
    }
    let items = arguments.items();
    if items.len() == 1 {
        let argument = spelled(alloc, bound, &items[0])?;
        return with_one(alloc, at, name, argument);
    }
    if items.len() == 2 {
        let first = spelled(alloc, bound, &items[0])?;
        let second = spelled(alloc, bound, &items[1])?;
        return with_two(alloc, at, name, first, second);
    }
    same_call(alloc, bound, at, name, arguments)
}

/// A call that stays one.
#[cycle(spelled)]
fn same_call(
    alloc: Global,
    bound: &mut BoundNames,
    at: Place,
    name: &Text,
    arguments: &Exprs,
) -> Result<Expr, NoMemory>
    ensures spelled { IfOk result (λ e. e ≡ Call at name.now (spelled_each bound.old arguments.now)) }
    ensures bound { OnOk result (bound.new ≡ bound.old) }
{
    let arguments = spelled_each(alloc, bound, arguments)?;
    Expr::new(alloc, at, Node::Call(name.copy()?, arguments))
}

/// The same of a tree around which one more name is bound.
#[cycle(spelled)]
fn spelled_under(
    alloc: Global,
    bound: &mut BoundNames,
    tree: &Expr,
    name: &Text,
) -> Result<Expr, NoMemory>
    ensures spelled { IfOk result (λ e. e ≡ spelled (bound.old ++ name.now ∷ []) tree.now) }
    ensures bound { OnOk result (bound.new ≡ bound.old) }
{
    let depth = bound.len();
    bound.push(name)?;
    let copy = spelled(alloc, bound, tree)?;
    bound.cut(depth);
    Ok(copy)
}

/// The same of a tree around which the names of bounds are bound.
#[cycle(spelled)]
fn spelled_within(
    alloc: Global,
    bound: &mut BoundNames,
    tree: &Expr,
    bounds: &Bounds,
) -> Result<Expr, NoMemory>
    ensures spelled { IfOk result (λ e. e ≡ spelled (bound.old ++ bound_by bounds.now) tree.now) }
    ensures bound { OnOk result (bound.new ≡ bound.old) }
{
    let depth = bound.len();
    bound.push_bounds(bounds)?;
    let copy = spelled(alloc, bound, tree)?;
    bound.cut(depth);
    Ok(copy)
}

#[cycle(spelled)]
fn spelled_each(alloc: Global, bound: &mut BoundNames, trees: &Exprs) -> Result<Exprs, NoMemory>
    ensures spelled { IfOk result (λ es. es ≡ spelled_each bound.old trees.now) }
    ensures bound { OnOk result (bound.new ≡ bound.old) }
{
    let mut copy = Exprs::new(alloc);
    for tree in trees.items() {
        let item = spelled(alloc, bound, tree)?;
        copy.push(item)?;
    }
    Ok(copy)
}

#[cycle(spelled)]
fn spelled_operands(
    alloc: Global,
    bound: &mut BoundNames,
    operands: &Operands,
) -> Result<Operands, NoMemory>
    ensures spelled { IfOk result (λ os. os ≡ spelled_operands bound.old operands.now) }
    ensures bound { OnOk result (bound.new ≡ bound.old) }
{
    let (first, others) = operands.parts();
    let first = spelled(alloc, bound, first)?;
    let mut copy = Operands::new(alloc, first)?;
    for operand in others {
        let value = spelled(alloc, bound, &operand.value)?;
        let at = operand.at;
        copy.push(Operand { at, value })?;
    }
    Ok(copy)
}

#[cycle(spelled)]
fn spelled_step(alloc: Global, bound: &mut BoundNames, step: &Step) -> Result<Step, NoMemory>
    ensures spelled { IfOk result (λ s. step_view s ≡ spelled_step bound.old (step_view step.now)) }
    ensures bound { OnOk result (bound.new ≡ bound.old) }
{
    match step {
        Step::Prime => Ok(Step::Prime),
        Step::Index(items) => {
            let items = spelled_each(alloc, bound, items)?;
            Ok(Step::Index(items))
        }
        Step::Field(name) => {
            let name = name.copy()?;
            Ok(Step::Field(name))
        }
    }
}

#[cycle(spelled)]
fn spelled_steps(alloc: Global, bound: &mut BoundNames, steps: &Steps) -> Result<Steps, NoMemory>
    ensures spelled { IfOk result (λ ss. ss ≡ spelled_steps bound.old steps.now) }
    ensures bound { OnOk result (bound.new ≡ bound.old) }
{
    let mut copy = Steps::new(alloc);
    for item in steps.items() {
        let step = spelled_step(alloc, bound, &item.step)?;
        let at = item.at;
        copy.push(StepAt { at, step })?;
    }
    Ok(copy)
}

#[cycle(spelled)]
fn spelled_bounds(
    alloc: Global,
    bound: &mut BoundNames,
    bounds: &Bounds,
) -> Result<Bounds, NoMemory>
    ensures spelled { IfOk result (λ bs. bs ≡ spelled_bounds bound.old bounds.now) }
    ensures bound { OnOk result (bound.new ≡ bound.old) }
{
    let mut copy = Bounds::new(alloc);
    for item in bounds.items() {
        let set = spelled(alloc, bound, &item.set)?;
        let names = copy_names(alloc, &item.names)?;
        copy.push(Bound { names, set })?;
    }
    Ok(copy)
}

#[cycle(spelled)]
fn spelled_fields(
    alloc: Global,
    bound: &mut BoundNames,
    fields: &Fields,
) -> Result<Fields, NoMemory>
    ensures spelled { IfOk result (λ fs. fs ≡ spelled_fields bound.old fields.now) }
    ensures bound { OnOk result (bound.new ≡ bound.old) }
{
    let mut copy = Fields::new(alloc);
    for field in fields.items() {
        let value = spelled(alloc, bound, &field.value)?;
        let name = field.name.copy()?;
        copy.push(Field { name, value })?;
    }
    Ok(copy)
}

#[cycle(spelled)]
fn spelled_changes(
    alloc: Global,
    bound: &mut BoundNames,
    changes: &Changes,
) -> Result<Changes, NoMemory>
    ensures spelled { IfOk result (λ cs. cs ≡ spelled_changes bound.old changes.now) }
    ensures bound { OnOk result (bound.new ≡ bound.old) }
{
    let mut copy = Changes::new(alloc);
    for change in changes.items() {
        let path = spelled_steps(alloc, bound, &change.path)?;
        let value = spelled(alloc, bound, &change.value)?;
        copy.push(Change { path, value })?;
    }
    Ok(copy)
}

#[cycle(spelled)]
fn spelled_arms(alloc: Global, bound: &mut BoundNames, arms: &Arms) -> Result<Arms, NoMemory>
    ensures spelled { IfOk result (λ a. a ≡ spelled_arms bound.old arms.now) }
    ensures bound { OnOk result (bound.new ≡ bound.old) }
{
    let mut copy = Arms::new(alloc);
    for arm in arms.items() {
        let test = spelled(alloc, bound, &arm.test)?;
        let value = spelled(alloc, bound, &arm.value)?;
        copy.push(Arm { test, value })?;
    }
    Ok(copy)
}

/// The same of definitions of a LET. Behind it their names are bound.
#[cycle(spelled)]
fn spelled_definitions(
    alloc: Global,
    bound: &mut BoundNames,
    definitions: &Definitions,
) -> Result<Definitions, NoMemory>
    ensures spelled { IfOk result (λ ds. ds ≡ spelled_definitions bound.old definitions.now) }
    ensures bound { OnOk result (bound.new ≡ bound.old ++ defined_by definitions.now) }
{
    let mut copy = Definitions::new(alloc);
    for definition in definitions.items() {
        bound.push(&definition.name)?;
        let body = spelled_body(alloc, bound, definition)?;
        let name = definition.name.copy()?;
        let params = copy_names(alloc, &definition.params)?;
        copy.push(Definition {
            name,
            at: definition.at,
            params,
            form: definition.form,
            body,
        })?;
    }
    Ok(copy)
}

/// The same of the body of a definition, which sees its parameters.
#[cycle(spelled)]
pub(crate) fn spelled_body(
    alloc: Global,
    bound: &mut BoundNames,
    definition: &Definition,
) -> Result<Expr, NoMemory>
    ensures spelled { IfOk result (λ e. e ≡ spelled (bound.old ++ definition.now.params) definition.now.body) }
    ensures bound { OnOk result (bound.new ≡ bound.old) }
{
    let depth = bound.len();
    bound.push_all(definition.params.items())?;
    let body = spelled(alloc, bound, &definition.body)?;
    bound.cut(depth);
    Ok(body)
}
