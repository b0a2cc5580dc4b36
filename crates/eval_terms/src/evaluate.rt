//! The value of a term, and the set that it describes.

ghost use Rattle.std.specs.Prelude.{◌≡◌, [], ◌∷◌, IfErr, IfOk, Ok, length, option_copied, map, true};
ghost use Rattle.values_sets.specs.Soundness.{IsSound};
ghost use Rattle.eval_meanings.specs.Answers.{IsReady, Tells, arity, is_operation_on_one, is_standard_operation};
ghost use Rattle.eval_meanings.specs.Contexts.{WithDefinition, enter};
ghost use Rattle.eval_meanings.specs.Evaluates.{Evaluates, Describes};
ghost use Rattle.eval_meanings.specs.Meanings.{BodyDescribed, FieldEvaluates, FirstArm, FunctionOfAll, IsValueOf, MeaningDescribes, MeaningEvaluates, PrefixEvaluates, StandardEvaluates, UseDescribed, UseEvaluates};
ghost use Rattle.eval_meanings.specs.Operations.{PrefixAnswers, StandardAnswers};
ghost use Rattle.eval_meanings.specs.Outcomes.{AllTrue, Each, Operated, SomeTrue, Then, place_in};
ghost use Rattle.eval_meanings.specs.Sets.{MeansSet};
ghost use Rattle.eval_meanings.specs.Unchanged.{TruthOf};
ghost use Rattle.names_terms.specs.Lists.{arms_list, fields_list, terms_list};
ghost use Rattle.names_terms.specs.Terms.{If, Use, place_of};
ghost use Rattle.names_terms.specs.TermViews.{field_item, node_view};
ghost use Rattle.values_core.specs.SetOperations.{AreDifferent};
ghost use Rattle.eval_meanings.specs.Reads.{ArmsRead, OtherReads, BodyReads, MeaningReads, PrefixReads, Reads, ReadsEach, UseReads};
ghost use Rattle.eval_parts.specs.Scenes.{OtherEvaluates, Stops, context, table};

use crate::binding::{eval_choose, eval_filter, eval_function, eval_map, eval_quantified};
use crate::describing::{
    describe_functions, describe_infix, describe_prefix, describe_records, describe_sequences,
    describe_subsets,
};
use crate::operations::{eval_functions, eval_infix, eval_records, eval_sequences};
use crate::stepping::{
    eval_except, eval_postfix, holds_and_changes, holds_or_stutters, is_unchanged,
};
use base_core::Place;
use eval_meanings::{
    EvalFault, function_of, list_at, named_set, prefix, sequence_of, set_at, set_of, standard,
    truth_at,
};
use eval_parts::{
    Scene, definition, denied, named_pair, places_of, push, slot, slots_and, truth_value, variable,
    with_slots,
};
use names_terms::{Arms, DefId, Field, Fields, Own, StandardOperator, Term, TermNode, Terms};
use reading_trees::PrefixOperator;
use std::alloc::Global;
use values_core::{EvalKind, Value};
use values_sets::{Described, DescribedNode};

/// The value of a term, where at most `depth` evaluations stand inside one another.
#[cycle(evaluate)]
pub fn eval(alloc: Global, scene: Scene<'_>, depth: u32, term: &Term) -> Result<Value, EvalFault>
    requires { Reads (table scene) depth (context scene) term.now }
    ensures { Tells result (Evaluates (table scene.entry) depth (context scene.entry) term.now) }
{
    if depth == 0 {
        return Err(EvalFault::Refused(EvalKind::Nested, term.at));
    }
    eval_node(alloc, scene, depth - 1, term.at, &*term.node)
}

/// The value of a term at this place with this meaning, whose parts have `depth` evaluations.
#[cycle(evaluate)]
fn eval_node(
    alloc: Global,
    scene: Scene<'_>,
    depth: u32,
    at: Place,
    node: &TermNode,
) -> Result<Value, EvalFault>
    requires { MeaningReads (table scene) (Reads (table scene) depth) (context scene) at (node_view node.now) }
    ensures { Tells result (MeaningEvaluates (table scene.entry) (Evaluates (table scene.entry) depth) (Describes (table scene.entry) depth) (context scene.entry) at (node_view node.now)) }
{
    match node {
        TermNode::Known(value) => Ok(value.copy()?),
        TermNode::Named(name) => list_at(alloc, named_set(*name), at),
        TermNode::Variable(number) => variable(scene.state, *number),
        TermNode::Slot(index) => slot(scene.slots, *index),
        TermNode::Use(number, arguments) => {
            eval_use(alloc, scene, depth, at, *number, arguments)
        }
        TermNode::Standard(operator, arguments) => {
            eval_standard(alloc, scene, depth, at, *operator, arguments)
        }
        TermNode::Parenthesized(inner) => {
            let set = describe(alloc, scene, depth, inner)?;
            list_at(alloc, set, at)
        }
        TermNode::Prefix(operator, operand) => {
            eval_prefix(alloc, scene, depth, at, *operator, operand)
        }
        TermNode::Infix(operator, operands, last) => {
            eval_infix(alloc, scene, depth, at, *operator, operands, last)
        }
        TermNode::FunctionSet(domain, range) => {
            eval_functions(alloc, scene, depth, at, domain, range)
        }
        TermNode::Scoped(_, inner) => eval(alloc, scene, depth, inner),
        TermNode::All(items) => truth_value(are_all_true(alloc, scene, depth, items)),
        TermNode::Any(items) => truth_value(is_some_true(alloc, scene, depth, items)),
        TermNode::SetOf(items) => {
            let values = eval_each(alloc, scene, depth, items)?;
            set_of(at, values)
        }
        TermNode::Filter(set, test) => eval_filter(alloc, scene, depth, at, set, test),
        TermNode::Choose(set, test) => eval_choose(alloc, scene, depth, at, set, test),
        TermNode::Tuple(items) => {
            let values = eval_each(alloc, scene, depth, items)?;
            sequence_of(alloc, at, values)
        }
        TermNode::Case(arms, None) => eval_case(alloc, scene, depth, at, arms, None),
        TermNode::Case(arms, Some(other)) => {
            eval_case(alloc, scene, depth, at, arms, Some(other))
        }
        TermNode::If(test, holds, other) => { eval_if(alloc, scene, depth, test, holds, other) }
        TermNode::Record(fields) => eval_record(alloc, scene, depth, at, fields),
        TermNode::AngleAction(action, subscript) => {
            truth_value(holds_and_changes(alloc, scene, depth, at, action, subscript))
        }
        TermNode::Map(term, bounds) => eval_map(alloc, scene, depth, at, term, bounds),
        TermNode::Function(bounds, term) => eval_function(alloc, scene, depth, at, bounds, term),
        TermNode::Quantified(quantifier, bounds, body) => {
            truth_value(eval_quantified(alloc, scene, depth, *quantifier, bounds, body))
        }
        TermNode::RecordSet(fields) => eval_records(alloc, scene, depth, at, fields),
        TermNode::Except(base, changes) => eval_except(alloc, scene, depth, at, base, changes),
        TermNode::Postfix(base, steps, last) => {
            eval_postfix(alloc, scene, depth, at, base, steps, last)
        }
        TermNode::BoxAction(action, subscript) => {
            truth_value(holds_or_stutters(alloc, scene, depth, at, action, subscript))
        }
        TermNode::Fairness(_, _) => unreachable!(),
    }
}

#[cycle(evaluate)]
fn eval_if(
    alloc: Global,
    scene: Scene<'_>,
    depth: u32,
    test: &Term,
    holds: &Term,
    other: &Term,
) -> Result<Value, EvalFault>
    requires test { Reads (table scene) depth (context scene) test.now }
    requires holds { Reads (table scene) depth (context scene) holds.now }
    requires other { Reads (table scene) depth (context scene) other.now }
    ensures { Tells result (MeaningEvaluates (table scene.entry) (Evaluates (table scene.entry) depth) (Describes (table scene.entry) depth) (context scene.entry) (place_of test.now) (If test.now holds.now other.now)) }
{
    match eval_truth(alloc, scene, depth, test) {
        Ok(true) => eval(alloc, scene, depth, holds),
        Ok(false) => eval(alloc, scene, depth, other),
        Err(fault) => Err(fault),
    }
}

/// The truth value of a term.
#[cycle(evaluate)]
pub fn eval_truth(
    alloc: Global,
    scene: Scene<'_>,
    depth: u32,
    term: &Term,
) -> Result<bool, EvalFault>
    requires { Reads (table scene) depth (context scene) term.now }
    ensures { Tells result (TruthOf (Evaluates (table scene.entry) depth) (context scene.entry) term.now) }
{
    match eval(alloc, scene, depth, term) {
        Ok(value) => truth_at(&value, term.at),
        Err(fault) => Err(fault),
    }
}

/// The values of terms, from left to right.
#[cycle(evaluate)]
pub fn eval_each(
    alloc: Global,
    scene: Scene<'_>,
    depth: u32,
    terms: &Terms,
) -> Result<Vec<Value>, EvalFault>
    requires { ReadsEach (Reads (table scene) depth) (context scene) (terms_list terms.now) }
    ensures values { IfOk result (λ values. Each (Evaluates (table scene.entry) depth (context scene.entry)) (terms_list terms.now) (Ok values.items)) }
    ensures many { IfOk result (λ values. length values.items ≡ length (terms_list terms.now)) }
    ensures fault { IfErr result (Stops (Each (Evaluates (table scene.entry) depth (context scene.entry)) (terms_list terms.now))) }
{
    let mut values = Vec::new(alloc);
    for term in terms.items() {
        match eval(alloc, scene, depth, term) {
            Ok(value) => push(&mut values, value)?,
            Err(fault) => return Err(fault),
        }
    }
    Ok(values)
}

#[cycle(evaluate)]
fn are_all_true(
    alloc: Global,
    scene: Scene<'_>,
    depth: u32,
    terms: &Terms,
) -> Result<bool, EvalFault>
    requires { ReadsEach (Reads (table scene) depth) (context scene) (terms_list terms.now) }
    ensures { Tells result (AllTrue (TruthOf (Evaluates (table scene.entry) depth) (context scene.entry)) (terms_list terms.now)) }
{
    for term in terms.items() {
        match eval_truth(alloc, scene, depth, term) {
            Ok(true) => {}
            Ok(false) => return Ok(false),
            Err(fault) => return Err(fault),
        }
    }
    Ok(true)
}

#[cycle(evaluate)]
fn is_some_true(
    alloc: Global,
    scene: Scene<'_>,
    depth: u32,
    terms: &Terms,
) -> Result<bool, EvalFault>
    requires { ReadsEach (Reads (table scene) depth) (context scene) (terms_list terms.now) }
    ensures { Tells result (SomeTrue (TruthOf (Evaluates (table scene.entry) depth) (context scene.entry)) (terms_list terms.now)) }
{
    for term in terms.items() {
        match eval_truth(alloc, scene, depth, term) {
            Ok(true) => return Ok(true),
            Ok(false) => {}
            Err(fault) => return Err(fault),
        }
    }
    Ok(false)
}

/// The set that a term describes. A term that is no described set is the set that is listed as its value, which may be no set.
#[cycle(evaluate)]
pub fn describe(
    alloc: Global,
    scene: Scene<'_>,
    depth: u32,
    term: &Term,
) -> Result<Described, EvalFault>
    requires { Reads (table scene) depth (context scene) term.now }
    ensures fine { Tells result (Describes (table scene.entry) depth (context scene.entry) term.now) }
    ensures ready { IfOk result IsReady }
{
    if depth == 0 {
        return Err(EvalFault::Refused(EvalKind::Nested, term.at));
    }
    describe_node(alloc, scene, depth - 1, term.at, &*term.node)
}

/// The set that a term at this place with this meaning describes.
#[cycle(evaluate)]
fn describe_node(
    alloc: Global,
    scene: Scene<'_>,
    depth: u32,
    at: Place,
    node: &TermNode,
) -> Result<Described, EvalFault>
    requires { MeaningReads (table scene) (Reads (table scene) depth) (context scene) at (node_view node.now) }
    ensures fine { Tells result (MeaningDescribes (table scene.entry) (Evaluates (table scene.entry) depth) (Describes (table scene.entry) depth) (context scene.entry) at (node_view node.now)) }
    ensures ready { IfOk result IsReady }
{
    match node {
        TermNode::Named(name) => Ok(named_set(*name)),
        TermNode::Parenthesized(inner) => describe(alloc, scene, depth, inner),
        TermNode::FunctionSet(domain, range) => {
            describe_functions(alloc, scene, depth, domain, range)
        }
        TermNode::Prefix(operator, operand) => {
            describe_prefix(alloc, scene, depth, at, node, *operator, operand)
        }
        TermNode::Known(_) => described_value(alloc, scene, depth, at, node),
        TermNode::Variable(_) => described_value(alloc, scene, depth, at, node),
        TermNode::Slot(_) => described_value(alloc, scene, depth, at, node),
        TermNode::SetOf(_) => described_value(alloc, scene, depth, at, node),
        TermNode::Filter(_, _) => described_value(alloc, scene, depth, at, node),
        TermNode::If(_, _, _) => described_value(alloc, scene, depth, at, node),
        TermNode::Scoped(_, _) => described_value(alloc, scene, depth, at, node),
        TermNode::All(_) => described_value(alloc, scene, depth, at, node),
        TermNode::Any(_) => described_value(alloc, scene, depth, at, node),
        TermNode::Postfix(_, _, _) => described_value(alloc, scene, depth, at, node),
        TermNode::Map(_, _) => described_value(alloc, scene, depth, at, node),
        TermNode::Tuple(_) => described_value(alloc, scene, depth, at, node),
        TermNode::Function(_, _) => described_value(alloc, scene, depth, at, node),
        TermNode::Record(_) => described_value(alloc, scene, depth, at, node),
        TermNode::Except(_, _) => described_value(alloc, scene, depth, at, node),
        TermNode::Quantified(_, _, _) => described_value(alloc, scene, depth, at, node),
        TermNode::Choose(_, _) => described_value(alloc, scene, depth, at, node),
        TermNode::Case(_, None) => described_value(alloc, scene, depth, at, node),
        TermNode::Case(_, Some(_)) => described_value(alloc, scene, depth, at, node),
        TermNode::BoxAction(_, _) => described_value(alloc, scene, depth, at, node),
        TermNode::AngleAction(_, _) => described_value(alloc, scene, depth, at, node),
        TermNode::Use(number, arguments) => {
            describe_call(alloc, scene, depth, at, node, *number, arguments)
        }
        TermNode::Standard(StandardOperator::Seq, arguments) => {
            describe_sequences(alloc, scene, depth, arguments)
        }
        TermNode::Infix(operator, operands, last) => {
            describe_infix(alloc, scene, depth, at, node, *operator, operands, last)
        }
        TermNode::RecordSet(fields) => describe_records(alloc, scene, depth, fields),
        TermNode::Standard(StandardOperator::Len, _) => described_value(
            alloc, scene, depth, at, node,
        ),
        TermNode::Standard(StandardOperator::Head, _) => described_value(
            alloc, scene, depth, at, node,
        ),
        TermNode::Standard(StandardOperator::Tail, _) => described_value(
            alloc, scene, depth, at, node,
        ),
        TermNode::Standard(StandardOperator::Append, _) => described_value(
            alloc, scene, depth, at, node,
        ),
        TermNode::Standard(StandardOperator::SubSeq, _) => described_value(
            alloc, scene, depth, at, node,
        ),
        TermNode::Standard(StandardOperator::IsFiniteSet, _) => described_value(
            alloc, scene, depth, at, node,
        ),
        TermNode::Standard(StandardOperator::Cardinality, _) => described_value(
            alloc, scene, depth, at, node,
        ),
        TermNode::Fairness(_, _) => unreachable!(),
    }
}

#[cycle(evaluate)]
fn eval_use(
    alloc: Global,
    scene: Scene<'_>,
    depth: u32,
    at: Place,
    number: DefId,
    arguments: &Terms,
) -> Result<Value, EvalFault>
    requires { UseReads (table scene) (Reads (table scene) depth) (context scene) number.0 (terms_list arguments.now) }
    ensures { Tells result (UseEvaluates (table scene.entry) (Evaluates (table scene.entry) depth) (Describes (table scene.entry) depth) (context scene.entry) number.0 arguments.now at) }
{
    if arguments.len() == 0 {
        return match describe_use(alloc, scene, depth, number) {
            Ok(set) => list_at(alloc, set, at),
            Err(fault) => Err(fault),
        };
    }
    match eval_each(alloc, scene, depth, arguments) {
        Ok(values) => eval_body(alloc, scene, depth, number, &values),
        Err(fault) => Err(fault),
    }
}

/// The body of a definition on the values of its arguments.
#[cycle(evaluate)]
fn eval_body(
    alloc: Global,
    scene: Scene<'_>,
    depth: u32,
    number: DefId,
    values: &[Value],
) -> Result<Value, EvalFault>
    requires { BodyReads (table scene) (Reads (table scene) depth) (context scene) number.0 values.now }
    ensures { Tells result (WithDefinition (table scene.entry) number.0 (λ o. Evaluates (table scene.entry) depth (enter o values.now (context scene.entry)) o.body)) }
{
    let operator = definition(scene.operators, number);
    let slots = slots_and(alloc, scene.slots, operator.outer, values)?;
    eval(alloc, with_slots(scene, &slots), depth, &operator.body)
}

/// The set that the body of a definition without parameters describes.
#[cycle(evaluate)]
fn describe_use(
    alloc: Global,
    scene: Scene<'_>,
    depth: u32,
    number: DefId,
) -> Result<Described, EvalFault>
    requires { BodyReads (table scene) (Reads (table scene) depth) (context scene) number.0 [] }
    ensures fine { Tells result (UseDescribed (table scene.entry) (Evaluates (table scene.entry) depth) (Describes (table scene.entry) depth) (context scene.entry) number.0) }
    ensures ready { IfOk result IsReady }
{
    let operator = definition(scene.operators, number);
    let slots = slots_and(alloc, scene.slots, operator.outer, &[])?;
    describe_body(
        alloc,
        with_slots(scene, &slots),
        depth,
        operator.own,
        &operator.body,
    )
}

/// The set that the body of a definition describes, or the value that it has where the definition uses itself.
#[cycle(evaluate)]
fn describe_body(
    alloc: Global,
    scene: Scene<'_>,
    depth: u32,
    own: Own,
    body: &Term,
) -> Result<Described, EvalFault>
    requires { Reads (table scene) depth (context scene) body.now }
    ensures fine { Tells result (BodyDescribed own (Evaluates (table scene.entry) depth) (Describes (table scene.entry) depth) (context scene.entry) body.now) }
    ensures ready { IfOk result IsReady }
{
    match own {
        Own::Apart => describe(alloc, scene, depth, body),
        Own::Itself => describe_listed(alloc, scene, depth, body),
        Own::Function => describe_listed(alloc, scene, depth, body),
    }
}

/// The value of a term, as a set that is listed.
#[cycle(evaluate)]
fn describe_listed(
    alloc: Global,
    scene: Scene<'_>,
    depth: u32,
    term: &Term,
) -> Result<Described, EvalFault>
    requires { Reads (table scene) depth (context scene) term.now }
    ensures fine { Tells result (IsValueOf (Evaluates (table scene.entry) depth (context scene.entry) term.now)) }
    ensures ready { IfOk result IsReady }
{
    match eval(alloc, scene, depth, term) {
        Ok(value) => Ok(Described {
            node: DescribedNode::Listed(value),
        }),
        Err(fault) => Err(fault),
    }
}

#[cycle(evaluate)]
fn eval_standard(
    alloc: Global,
    scene: Scene<'_>,
    depth: u32,
    at: Place,
    operator: StandardOperator,
    arguments: &Terms,
) -> Result<Value, EvalFault>
    requires many { length (terms_list arguments.now) ≡ arity operator }
    requires read { ReadsEach (Reads (table scene) depth) (context scene) (terms_list arguments.now) }
    ensures { Tells result (StandardEvaluates (Evaluates (table scene.entry) depth) (Describes (table scene.entry) depth) (context scene.entry) operator arguments.now at) }
{
    match operator {
        StandardOperator::Seq => eval_sequences(alloc, scene, depth, at, arguments),
        StandardOperator::Len => eval_operation(alloc, scene, depth, at, operator, arguments),
        StandardOperator::Head => eval_operation(alloc, scene, depth, at, operator, arguments),
        StandardOperator::Tail => eval_operation(alloc, scene, depth, at, operator, arguments),
        StandardOperator::Append => eval_operation(alloc, scene, depth, at, operator, arguments),
        StandardOperator::SubSeq => eval_operation(alloc, scene, depth, at, operator, arguments),
        StandardOperator::IsFiniteSet => {
            eval_operation(alloc, scene, depth, at, operator, arguments)
        }
        StandardOperator::Cardinality => {
            eval_operation(alloc, scene, depth, at, operator, arguments)
        }
    }
}

/// An operator of a standard module that makes a value.
#[cycle(evaluate)]
fn eval_operation(
    alloc: Global,
    scene: Scene<'_>,
    depth: u32,
    at: Place,
    operator: StandardOperator,
    arguments: &Terms,
) -> Result<Value, EvalFault>
    requires operation { is_standard_operation operator ≡ true }
    requires many { length (terms_list arguments.now) ≡ arity operator }
    requires read { ReadsEach (Reads (table scene) depth) (context scene) (terms_list arguments.now) }
    ensures { Tells result (Then (Each (Evaluates (table scene.entry) depth (context scene.entry)) (terms_list arguments.now)) (λ vs. Operated (StandardAnswers operator vs) (place_in at (map place_of (terms_list arguments.now))))) }
{
    match eval_each(alloc, scene, depth, arguments) {
        Ok(values) => {
            let places = places_of(alloc, arguments)?;
            standard(alloc, operator, &values, at, &places)
        }
        Err(fault) => Err(fault),
    }
}

#[cycle(evaluate)]
fn eval_prefix(
    alloc: Global,
    scene: Scene<'_>,
    depth: u32,
    at: Place,
    operator: PrefixOperator,
    operand: &Term,
) -> Result<Value, EvalFault>
    requires { PrefixReads (table scene) (Reads (table scene) depth) (context scene) operator at operand.now }
    ensures { Tells result (PrefixEvaluates (table scene.entry) (Evaluates (table scene.entry) depth) (Describes (table scene.entry) depth) (context scene.entry) operator operand.now at) }
{
    match operator {
        PrefixOperator::Not => denied(eval_truth(alloc, scene, depth, operand)),
        PrefixOperator::Unchanged => { truth_value(is_unchanged(alloc, scene, depth, at, operand)) }
        PrefixOperator::Powerset => match describe_subsets(alloc, scene, depth, operand) {
            Ok(set) => list_at(alloc, set, at),
            Err(fault) => Err(fault),
        },
        PrefixOperator::Negate => eval_one(alloc, scene, depth, at, operator, operand),
        PrefixOperator::BigUnion => eval_one(alloc, scene, depth, at, operator, operand),
        PrefixOperator::Domain => eval_one(alloc, scene, depth, at, operator, operand),
        PrefixOperator::Enabled => unreachable!(),
        PrefixOperator::Always => unreachable!(),
        PrefixOperator::Eventually => unreachable!(),
    }
}

/// A prefix operation on the value of its operand.
#[cycle(evaluate)]
fn eval_one(
    alloc: Global,
    scene: Scene<'_>,
    depth: u32,
    at: Place,
    operator: PrefixOperator,
    operand: &Term,
) -> Result<Value, EvalFault>
    requires operation { is_operation_on_one operator ≡ true }
    requires read { Reads (table scene) depth (context scene) operand.now }
    ensures { Tells result (Then (Evaluates (table scene.entry) depth (context scene.entry) operand.now) (λ v. Operated (PrefixAnswers operator v) (place_in at (place_of operand.now ∷ [])))) }
{
    match eval(alloc, scene, depth, operand) {
        Ok(value) => prefix(alloc, operator, &value, at, &[operand.at]),
        Err(fault) => Err(fault),
    }
}

/// The set that a term means as an operand.
#[cycle(evaluate)]
pub fn describe_set(
    alloc: Global,
    scene: Scene<'_>,
    depth: u32,
    term: &Term,
) -> Result<Described, EvalFault>
    requires { Reads (table scene) depth (context scene) term.now }
    ensures fine { Tells result (MeansSet (Describes (table scene.entry) depth) (context scene.entry) term.now) }
    ensures sound { IfOk result IsSound }
{
    match describe(alloc, scene, depth, term) {
        Ok(set) => set_at(set, term.at),
        Err(fault) => Err(fault),
    }
}

/// A term that is no described set, as the value that it has.
#[cycle(evaluate)]
pub(crate) fn described_value(
    alloc: Global,
    scene: Scene<'_>,
    depth: u32,
    at: Place,
    node: &TermNode,
) -> Result<Described, EvalFault>
    requires { MeaningReads (table scene) (Reads (table scene) depth) (context scene) at (node_view node.now) }
    ensures fine { Tells result (IsValueOf (MeaningEvaluates (table scene.entry) (Evaluates (table scene.entry) depth) (Describes (table scene.entry) depth) (context scene.entry) at (node_view node.now))) }
    ensures ready { IfOk result IsReady }
{
    match eval_node(alloc, scene, depth, at, node) {
        Ok(value) => Ok(Described {
            node: DescribedNode::Listed(value),
        }),
        Err(fault) => Err(fault),
    }
}

/// CASE: the value of the first arm whose test is true, or else of the last arm, if there is one.
#[cycle(evaluate)]
fn eval_case(
    alloc: Global,
    scene: Scene<'_>,
    depth: u32,
    at: Place,
    arms: &Arms,
    other: Option<&Term>,
) -> Result<Value, EvalFault>
    requires arms { ArmsRead (Reads (table scene) depth) (context scene) (arms_list arms.now) }
    requires other { OtherReads (Reads (table scene) depth) (context scene) (option_copied other) }
    ensures { Tells result (FirstArm (Evaluates (table scene.entry) depth) (context scene.entry) (OtherEvaluates (Evaluates (table scene.entry) depth) (context scene.entry) at (option_copied other.entry)) (arms_list arms.now)) }
{
    for arm in arms.items() {
        match eval_truth(alloc, scene, depth, &arm.test) {
            Ok(true) => return eval(alloc, scene, depth, &arm.value),
            Ok(false) => {}
            Err(fault) => return Err(fault),
        }
    }
    match other {
        Some(term) => eval(alloc, scene, depth, term),
        None => Err(EvalFault::Refused(EvalKind::NoCase, at)),
    }
}

/// The set that a use of a definition describes: that of its body where it has no arguments.
#[cycle(evaluate)]
fn describe_call(
    alloc: Global,
    scene: Scene<'_>,
    depth: u32,
    at: Place,
    node: &TermNode,
    number: DefId,
    arguments: &Terms,
) -> Result<Described, EvalFault>
    requires node { node_view node.now ≡ Use number.0 arguments.now }
    requires read { UseReads (table scene) (Reads (table scene) depth) (context scene) number.0 (terms_list arguments.now) }
    ensures fine { Tells result (MeaningDescribes (table scene.entry) (Evaluates (table scene.entry) depth) (Describes (table scene.entry) depth) (context scene.entry) at (Use number.0 arguments.now)) }
    ensures ready { IfOk result IsReady }
{
    if arguments.len() == 0 {
        return describe_use(alloc, scene, depth, number);
    }
    described_value(alloc, scene, depth, at, node)
}

/// `[h |-> e]`.
#[cycle(evaluate)]
fn eval_record(
    alloc: Global,
    scene: Scene<'_>,
    depth: u32,
    at: Place,
    fields: &Fields,
) -> Result<Value, EvalFault>
    requires different { AreDifferent (map (λ f. f.0) (fields_list fields.now)) }
    requires read { ReadsEach (Reads (table scene) depth) (context scene) (map (λ f. f.1) (fields_list fields.now)) }
    ensures { Tells result (Then (Each (FieldEvaluates (Evaluates (table scene.entry) depth) (context scene.entry)) (fields_list fields.now)) (FunctionOfAll at)) }
{
    match eval_fields(alloc, scene, depth, fields) {
        Ok(pairs) => function_of(alloc, at, pairs),
        Err(fault) => Err(fault),
    }
}

/// The names of fields beside their values, from left to right.
#[cycle(evaluate)]
fn eval_fields(
    alloc: Global,
    scene: Scene<'_>,
    depth: u32,
    fields: &Fields,
) -> Result<Vec<(Value, Value)>, EvalFault>
    requires { ReadsEach (Reads (table scene) depth) (context scene) (map (λ f. f.1) (fields_list fields.now)) }
    ensures pairs { IfOk result (λ pairs. Each (FieldEvaluates (Evaluates (table scene.entry) depth) (context scene.entry)) (fields_list fields.now) (Ok pairs.items)) }
    ensures fault { IfErr result (Stops (Each (FieldEvaluates (Evaluates (table scene.entry) depth) (context scene.entry)) (fields_list fields.now))) }
{
    let mut pairs = Vec::new(alloc);
    for field in fields.items() {
        match eval_field(alloc, scene, depth, field) {
            Ok(pair) => push(&mut pairs, pair)?,
            Err(fault) => return Err(fault),
        }
    }
    Ok(pairs)
}

#[cycle(evaluate)]
fn eval_field(
    alloc: Global,
    scene: Scene<'_>,
    depth: u32,
    field: &Field,
) -> Result<(Value, Value), EvalFault>
    requires { Reads (table scene) depth (context scene) field.now.value }
    ensures { Tells result (FieldEvaluates (Evaluates (table scene.entry) depth) (context scene.entry) (field_item field.now)) }
{
    match eval(alloc, scene, depth, &field.value) {
        Ok(value) => Ok(named_pair(field, value)?),
        Err(fault) => Err(fault),
    }
}
