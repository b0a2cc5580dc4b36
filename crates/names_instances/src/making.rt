//! The trees of an instance.
//!
//! The names that are bound around a place are one list, which grows where names are bound and is cut back behind the part that sees them. Rows whose last
//! part reaches as far right as possible are made by a loop, so that any number of them takes no stack.

ghost use Rattle.std.specs.Prelude.{◌≡◌, ◌∷◌, ◌++◌, [], false, IfOk, OnOk};
ghost use Rattle.reading_trees.specs.TreeViews.{step_view};
ghost use Rattle.names_instances.specs.Made.{bound_by, call_by, defined_by, made, made_each, made_operands, made_step, made_steps, made_bounds, made_fields, made_changes, made_arms, made_definitions, name_by, qualified_by, unless_bound};
ghost use Rattle.names_instances.specs.Renamed.{renamed};
ghost use Rattle.names_scopes.specs.Reaching.{reaches_right};

use crate::bound_names::BoundNames;
use crate::renaming::Renaming;
use crate::rows::{Opening, Row, closed_all};
use base_core::{Names, NoMemory, Place, Text};
use reading_trees::{
    Arm, Arms, Bound, Bounds, Change, Changes, Definition, Definitions, Expr, Exprs, Field, Fields,
    Node, Operand, Operands, Step, StepAt, Steps,
};
use std::alloc::Global;

/// Equal names.
pub(crate) fn copy_names(alloc: Global, names: &Names) -> Result<Names, NoMemory>
    ensures { IfOk result (λ copy. copy ≡ names.now) }
{
    let mut copy = Names::new(alloc);
    for name in names.items() {
        copy.push(name.copy()?)?;
    }
    Ok(copy)
}

/// The qualified name that stands for a name at a place, or none where the name is bound or stays.
fn stand_in(
    alloc: Global,
    renaming: &Renaming<'_>,
    bound: &BoundNames,
    name: &Text,
) -> Result<Option<Text>, NoMemory>
    ensures { IfOk result (λ q. q ≡ unless_bound bound.now (renamed renaming.now) name.now) }
{
    if bound.bind(name) {
        return Ok(None);
    }
    renaming.stand_in(alloc, name)
}

/// The tree of a use of a name.
fn name_used(
    alloc: Global,
    at: Place,
    stand_in: Option<Text>,
    name: &Text,
) -> Result<Expr, NoMemory>
    ensures { IfOk result (λ e. e ≡ name_by stand_in at name.now) }
{
    match stand_in {
        Some(qualified) => Expr::new(alloc, at, Node::Qualified(qualified, Exprs::new(alloc))),
        None => Expr::new(alloc, at, Node::Name(name.copy()?)),
    }
}

/// The tree of a use of a name with arguments.
fn call_used(
    alloc: Global,
    at: Place,
    stand_in: Option<Text>,
    name: &Text,
    arguments: Exprs,
) -> Result<Expr, NoMemory>
    ensures { IfOk result (λ e. e ≡ call_by stand_in at name.now arguments) }
{
    match stand_in {
        Some(qualified) => Expr::new(alloc, at, Node::Qualified(qualified, arguments)),
        None => Expr::new(alloc, at, Node::Call(name.copy()?, arguments)),
    }
}

/// The tree of a use of a qualified name.
fn qualified_used(
    alloc: Global,
    at: Place,
    stand_in: Option<Text>,
    name: &Text,
    arguments: Exprs,
) -> Result<Expr, NoMemory>
    ensures { IfOk result (λ e. e ≡ qualified_by stand_in at name.now arguments) }
{
    match stand_in {
        Some(qualified) => Expr::new(alloc, at, Node::Qualified(qualified, arguments)),
        None => Expr::new(alloc, at, Node::Qualified(name.copy()?, arguments)),
    }
}

/// The tree that is made of a tree around which these names are bound.
#[cycle(made)]
pub(crate) fn made(
    alloc: Global,
    renaming: &Renaming<'_>,
    bound: &mut BoundNames,
    tree: &Expr,
) -> Result<Expr, NoMemory>
    ensures made { IfOk result (λ e. e ≡ made (renamed renaming.now) bound.old tree.now) }
    ensures bound { OnOk result (bound.new ≡ bound.old) }
{
    let depth = bound.len();
    let mut rows = Vec::new(alloc);
    let mut rest = tree;
    loop {
        let at = rest.at;
        match &*rest.node {
            Node::If(test, then, last) => {
                let made_test = made(alloc, renaming, bound, test)?;
                let made_then = made(alloc, renaming, bound, then)?;
                let opening = Opening::If(made_test, made_then);
                rows.push(Row { at, opening })?;
                rest = last;
            }
            Node::Quantified(quantifier, bounds, body) => {
                let sets = made_bounds(alloc, renaming, bound, bounds)?;
                bound.push_bounds(bounds)?;
                let opening = Opening::Quantified(*quantifier, sets);
                rows.push(Row { at, opening })?;
                rest = body;
            }
            Node::Choose(name, set, body) => {
                let made_set = made(alloc, renaming, bound, set)?;
                bound.push(name)?;
                let same_name = name.copy()?;
                let opening = Opening::Choose(same_name, made_set);
                rows.push(Row { at, opening })?;
                rest = body;
            }
            Node::Let(definitions, body) => {
                let made = made_definitions(alloc, renaming, bound, definitions)?;
                let opening = Opening::Let(made);
                rows.push(Row { at, opening })?;
                rest = body;
            }
            _ => {
                let last = made_row(alloc, renaming, bound, rest)?;
                bound.cut(depth);
                return closed_all(alloc, rows, last);
            }
        }
    }
}

/// The same of a tree that ends with no part that reaches as far right as possible.
#[cycle(made)]
fn made_row(
    alloc: Global,
    renaming: &Renaming<'_>,
    bound: &mut BoundNames,
    tree: &Expr,
) -> Result<Expr, NoMemory>
    requires { reaches_right tree.now ≡ false }
    ensures made { IfOk result (λ e. e ≡ made (renamed renaming.now) bound.old tree.now) }
    ensures bound { OnOk result (bound.new ≡ bound.old) }
{
    let at = tree.at;
    match &*tree.node {
        Node::Number(number) => Expr::new(alloc, at, Node::Number(*number)),
        Node::Str(text) => Expr::new(alloc, at, Node::Str(text.copy()?)),
        Node::Truth(truth) => Expr::new(alloc, at, Node::Truth(*truth)),
        Node::Builtin(set) => Expr::new(alloc, at, Node::Builtin(*set)),
        Node::Name(name) => {
            let stand_in = stand_in(alloc, renaming, bound, name)?;
            name_used(alloc, at, stand_in, name)
        }
        Node::Call(name, arguments) => {
            let stand_in = stand_in(alloc, renaming, bound, name)?;
            let arguments = made_each(alloc, renaming, bound, arguments)?;
            call_used(alloc, at, stand_in, name, arguments)
        }
        Node::Qualified(name, arguments) => {
            let stand_in = renaming.stand_in(alloc, name)?;
            let arguments = made_each(alloc, renaming, bound, arguments)?;
            qualified_used(alloc, at, stand_in, name, arguments)
        }
        Node::At => Expr::new(alloc, at, Node::At),
        Node::Parenthesized(inner) => {
            let inner = made(alloc, renaming, bound, inner)?;
            Expr::new(alloc, at, Node::Parenthesized(inner))
        }
        Node::Junction(bullet, items) => {
            let items = made_each(alloc, renaming, bound, items)?;
            Expr::new(alloc, at, Node::Junction(*bullet, items))
        }
        Node::Prefix(operator, operand) => {
            let operand = made(alloc, renaming, bound, operand)?;
            Expr::new(alloc, at, Node::Prefix(*operator, operand))
        }
        Node::Infix(operator, operands, last) => {
            let operands = made_operands(alloc, renaming, bound, operands)?;
            let last = made(alloc, renaming, bound, last)?;
            Expr::new(alloc, at, Node::Infix(*operator, operands, last))
        }
        Node::Postfix(base, steps, last) => {
            let base = made(alloc, renaming, bound, base)?;
            let steps = made_steps(alloc, renaming, bound, steps)?;
            let last = made_step(alloc, renaming, bound, last)?;
            Expr::new(alloc, at, Node::Postfix(base, steps, last))
        }
        Node::SetOf(items) => {
            let items = made_each(alloc, renaming, bound, items)?;
            Expr::new(alloc, at, Node::SetOf(items))
        }
        Node::Filter(name, set, test) => {
            let set = made(alloc, renaming, bound, set)?;
            let test = made_under(alloc, renaming, bound, test, name)?;
            Expr::new(alloc, at, Node::Filter(name.copy()?, set, test))
        }
        Node::Map(value, bounds) => {
            let value = made_within(alloc, renaming, bound, value, bounds)?;
            let bounds = made_bounds(alloc, renaming, bound, bounds)?;
            Expr::new(alloc, at, Node::Map(value, bounds))
        }
        Node::Tuple(items) => {
            let items = made_each(alloc, renaming, bound, items)?;
            Expr::new(alloc, at, Node::Tuple(items))
        }
        Node::Function(bounds, value) => {
            let value = made_within(alloc, renaming, bound, value, bounds)?;
            let bounds = made_bounds(alloc, renaming, bound, bounds)?;
            Expr::new(alloc, at, Node::Function(bounds, value))
        }
        Node::FunctionSet(domain, range) => {
            let domain = made(alloc, renaming, bound, domain)?;
            let range = made(alloc, renaming, bound, range)?;
            Expr::new(alloc, at, Node::FunctionSet(domain, range))
        }
        Node::Record(fields) => {
            let fields = made_fields(alloc, renaming, bound, fields)?;
            Expr::new(alloc, at, Node::Record(fields))
        }
        Node::RecordSet(fields) => {
            let fields = made_fields(alloc, renaming, bound, fields)?;
            Expr::new(alloc, at, Node::RecordSet(fields))
        }
        Node::Except(function, changes) => {
            let function = made(alloc, renaming, bound, function)?;
            let changes = made_changes(alloc, renaming, bound, changes)?;
            Expr::new(alloc, at, Node::Except(function, changes))
        }
        Node::Case(arms, None) => {
            let arms = made_arms(alloc, renaming, bound, arms)?;
            Expr::new(alloc, at, Node::Case(arms, None))
        }
        Node::Case(arms, Some(other)) => {
            let arms = made_arms(alloc, renaming, bound, arms)?;
            let other = made(alloc, renaming, bound, other)?;
            Expr::new(alloc, at, Node::Case(arms, Some(other)))
        }
        Node::BoxAction(action, subscript) => {
            let action = made(alloc, renaming, bound, action)?;
            let subscript = made(alloc, renaming, bound, subscript)?;
            Expr::new(alloc, at, Node::BoxAction(action, subscript))
        }
        Node::AngleAction(action, subscript) => {
            let action = made(alloc, renaming, bound, action)?;
            let subscript = made(alloc, renaming, bound, subscript)?;
            Expr::new(alloc, at, Node::AngleAction(action, subscript))
        }
        Node::Fairness(subscript, action) => {
            let subscript = made(alloc, renaming, bound, subscript)?;
            let action = made(alloc, renaming, bound, action)?;
            Expr::new(alloc, at, Node::Fairness(subscript, action))
        }
        Node::Quantified(_, _, _) => unreachable!(),
        Node::Choose(_, _, _) => unreachable!(),
        Node::If(_, _, _) => unreachable!(),
        Node::Let(_, _) => unreachable!(),
    }
}

/// The same of a tree around which one more name is bound.
#[cycle(made)]
fn made_under(
    alloc: Global,
    renaming: &Renaming<'_>,
    bound: &mut BoundNames,
    tree: &Expr,
    name: &Text,
) -> Result<Expr, NoMemory>
    ensures made { IfOk result (λ e. e ≡ made (renamed renaming.now) (bound.old ++ name.now ∷ []) tree.now) }
    ensures bound { OnOk result (bound.new ≡ bound.old) }
{
    let depth = bound.len();
    bound.push(name)?;
    let copy = made(alloc, renaming, bound, tree)?;
    bound.cut(depth);
    Ok(copy)
}

/// The same of a tree around which the names of bounds are bound.
#[cycle(made)]
fn made_within(
    alloc: Global,
    renaming: &Renaming<'_>,
    bound: &mut BoundNames,
    tree: &Expr,
    bounds: &Bounds,
) -> Result<Expr, NoMemory>
    ensures made { IfOk result (λ e. e ≡ made (renamed renaming.now) (bound.old ++ bound_by bounds.now) tree.now) }
    ensures bound { OnOk result (bound.new ≡ bound.old) }
{
    let depth = bound.len();
    bound.push_bounds(bounds)?;
    let copy = made(alloc, renaming, bound, tree)?;
    bound.cut(depth);
    Ok(copy)
}

#[cycle(made)]
fn made_each(
    alloc: Global,
    renaming: &Renaming<'_>,
    bound: &mut BoundNames,
    trees: &Exprs,
) -> Result<Exprs, NoMemory>
    ensures made { IfOk result (λ es. es ≡ made_each (renamed renaming.now) bound.old trees.now) }
    ensures bound { OnOk result (bound.new ≡ bound.old) }
{
    let mut copy = Exprs::new(alloc);
    for tree in trees.items() {
        let item = made(alloc, renaming, bound, tree)?;
        copy.push(item)?;
    }
    Ok(copy)
}

#[cycle(made)]
fn made_operands(
    alloc: Global,
    renaming: &Renaming<'_>,
    bound: &mut BoundNames,
    operands: &Operands,
) -> Result<Operands, NoMemory>
    ensures made { IfOk result (λ os. os ≡ made_operands (renamed renaming.now) bound.old operands.now) }
    ensures bound { OnOk result (bound.new ≡ bound.old) }
{
    let (first, others) = operands.parts();
    let first = made(alloc, renaming, bound, first)?;
    let mut copy = Operands::new(alloc, first)?;
    for operand in others {
        let value = made(alloc, renaming, bound, &operand.value)?;
        let at = operand.at;
        copy.push(Operand { at, value })?;
    }
    Ok(copy)
}

#[cycle(made)]
fn made_step(
    alloc: Global,
    renaming: &Renaming<'_>,
    bound: &mut BoundNames,
    step: &Step,
) -> Result<Step, NoMemory>
    ensures made { IfOk result (λ s. step_view s ≡ made_step (renamed renaming.now) bound.old (step_view step.now)) }
    ensures bound { OnOk result (bound.new ≡ bound.old) }
{
    match step {
        Step::Prime => Ok(Step::Prime),
        Step::Index(items) => {
            let items = made_each(alloc, renaming, bound, items)?;
            Ok(Step::Index(items))
        }
        Step::Field(name) => {
            let name = name.copy()?;
            Ok(Step::Field(name))
        }
    }
}

#[cycle(made)]
fn made_steps(
    alloc: Global,
    renaming: &Renaming<'_>,
    bound: &mut BoundNames,
    steps: &Steps,
) -> Result<Steps, NoMemory>
    ensures made { IfOk result (λ ss. ss ≡ made_steps (renamed renaming.now) bound.old steps.now) }
    ensures bound { OnOk result (bound.new ≡ bound.old) }
{
    let mut copy = Steps::new(alloc);
    for item in steps.items() {
        let step = made_step(alloc, renaming, bound, &item.step)?;
        let at = item.at;
        copy.push(StepAt { at, step })?;
    }
    Ok(copy)
}

#[cycle(made)]
fn made_bounds(
    alloc: Global,
    renaming: &Renaming<'_>,
    bound: &mut BoundNames,
    bounds: &Bounds,
) -> Result<Bounds, NoMemory>
    ensures made { IfOk result (λ bs. bs ≡ made_bounds (renamed renaming.now) bound.old bounds.now) }
    ensures bound { OnOk result (bound.new ≡ bound.old) }
{
    let mut copy = Bounds::new(alloc);
    for item in bounds.items() {
        let set = made(alloc, renaming, bound, &item.set)?;
        let names = copy_names(alloc, &item.names)?;
        copy.push(Bound { names, set })?;
    }
    Ok(copy)
}

#[cycle(made)]
fn made_fields(
    alloc: Global,
    renaming: &Renaming<'_>,
    bound: &mut BoundNames,
    fields: &Fields,
) -> Result<Fields, NoMemory>
    ensures made { IfOk result (λ fs. fs ≡ made_fields (renamed renaming.now) bound.old fields.now) }
    ensures bound { OnOk result (bound.new ≡ bound.old) }
{
    let mut copy = Fields::new(alloc);
    for field in fields.items() {
        let value = made(alloc, renaming, bound, &field.value)?;
        let name = field.name.copy()?;
        copy.push(Field { name, value })?;
    }
    Ok(copy)
}

#[cycle(made)]
fn made_changes(
    alloc: Global,
    renaming: &Renaming<'_>,
    bound: &mut BoundNames,
    changes: &Changes,
) -> Result<Changes, NoMemory>
    ensures made { IfOk result (λ cs. cs ≡ made_changes (renamed renaming.now) bound.old changes.now) }
    ensures bound { OnOk result (bound.new ≡ bound.old) }
{
    let mut copy = Changes::new(alloc);
    for change in changes.items() {
        let path = made_steps(alloc, renaming, bound, &change.path)?;
        let value = made(alloc, renaming, bound, &change.value)?;
        copy.push(Change { path, value })?;
    }
    Ok(copy)
}

#[cycle(made)]
fn made_arms(
    alloc: Global,
    renaming: &Renaming<'_>,
    bound: &mut BoundNames,
    arms: &Arms,
) -> Result<Arms, NoMemory>
    ensures made { IfOk result (λ a. a ≡ made_arms (renamed renaming.now) bound.old arms.now) }
    ensures bound { OnOk result (bound.new ≡ bound.old) }
{
    let mut copy = Arms::new(alloc);
    for arm in arms.items() {
        let test = made(alloc, renaming, bound, &arm.test)?;
        let value = made(alloc, renaming, bound, &arm.value)?;
        copy.push(Arm { test, value })?;
    }
    Ok(copy)
}

/// The same of definitions of a LET. Behind it their names are bound.
#[cycle(made)]
fn made_definitions(
    alloc: Global,
    renaming: &Renaming<'_>,
    bound: &mut BoundNames,
    definitions: &Definitions,
) -> Result<Definitions, NoMemory>
    ensures made { IfOk result (λ ds. ds ≡ made_definitions (renamed renaming.now) bound.old definitions.now) }
    ensures bound { OnOk result (bound.new ≡ bound.old ++ defined_by definitions.now) }
{
    let mut copy = Definitions::new(alloc);
    for definition in definitions.items() {
        bound.push(&definition.name)?;
        let body = made_body(alloc, renaming, bound, definition)?;
        let name = definition.name.copy()?;
        let params = copy_names(alloc, &definition.params)?;
        copy.push(Definition {
            name,
            at: definition.at,
            params,
            form: definition.form,
            body,
        })?;
    }
    Ok(copy)
}

/// The body that is made of the body of a definition, which sees its parameters.
#[cycle(made)]
pub(crate) fn made_body(
    alloc: Global,
    renaming: &Renaming<'_>,
    bound: &mut BoundNames,
    definition: &Definition,
) -> Result<Expr, NoMemory>
    ensures made { IfOk result (λ e. e ≡ made (renamed renaming.now) (bound.old ++ definition.now.params) definition.now.body) }
    ensures bound { OnOk result (bound.new ≡ bound.old) }
{
    let depth = bound.len();
    bound.push_all(definition.params.items())?;
    let body = made(alloc, renaming, bound, &definition.body)?;
    bound.cut(depth);
    Ok(body)
}
