//! Infix operators that make values.

ghost use Rattle.std.specs.Prelude.{◌≡◌, [], ◌∷◌, ◌++◌, length, map, true};
ghost use Rattle.eval_meanings.specs.Answers.{Tells, is_joining, is_operation};
ghost use Rattle.eval_meanings.specs.Evaluates.{Evaluates, Describes};
ghost use Rattle.eval_meanings.specs.Meanings.{AreEquivalent, ChainEvaluates, FunctionsDescribed, ImplicationHolds, InfixEvaluates, IsMemberOf, IsSubsetOf, SequencesDescribed};
ghost use Rattle.eval_meanings.specs.Operations.{InfixAnswers};
ghost use Rattle.eval_meanings.specs.Outcomes.{Operated, Then, place_in};
ghost use Rattle.eval_meanings.specs.Sets.{ChainDescribed, IntervalDescribed, first_operand, other_operands, ListedAt, RecordsDescribed, ProductDescribed};
ghost use Rattle.names_terms.specs.Lists.{fields_list, terms_list};
ghost use Rattle.names_terms.specs.Terms.{First, Next, place_of};
ghost use Rattle.values_core.specs.SetOperations.{AreDifferent};
ghost use Rattle.eval_meanings.specs.Reads.{InfixReads, Reads, ReadsEach, has_value, is_chained};
ghost use Rattle.eval_parts.specs.Scenes.{context, table};

use crate::describing::{
    describe_chain, describe_functions, describe_interval, describe_product, describe_records,
    describe_sequences, describe_two,
};
use crate::evaluate::{describe, describe_set, eval, eval_truth};
use base_core::Place;
use eval_meanings::{EvalFault, list_at};
use eval_parts::{
    Scene, are_equivalent, denied, first_of, infix_at, infix_on, is_part, only, others_of,
    place_at, truth_value,
};
use names_terms::{Fields, Operand, Operands, Term, Terms};
use reading_trees::InfixOperator;
use std::alloc::Global;
use values_core::Value;
use values_sets::member;

#[cycle(evaluate)]
pub(crate) fn eval_functions(
    alloc: Global,
    scene: Scene<'_>,
    depth: u32,
    at: Place,
    domain: &Term,
    range: &Term,
) -> Result<Value, EvalFault>
    requires domain { Reads (table scene) depth (context scene) domain.now }
    requires range { Reads (table scene) depth (context scene) range.now }
    ensures { Tells result (ListedAt at (FunctionsDescribed (Evaluates (table scene.entry) depth) (Describes (table scene.entry) depth) (context scene.entry) domain.now range.now)) }
{
    match describe_functions(alloc, scene, depth, domain, range) {
        Ok(set) => list_at(alloc, set, at),
        Err(fault) => Err(fault),
    }
}

#[cycle(evaluate)]
pub(crate) fn eval_infix(
    alloc: Global,
    scene: Scene<'_>,
    depth: u32,
    at: Place,
    operator: InfixOperator,
    operands: &Operands,
    last: &Term,
) -> Result<Value, EvalFault>
    requires { InfixReads (Reads (table scene) depth) (context scene) operator operands.now at last.now }
    ensures { Tells result (InfixEvaluates (Evaluates (table scene.entry) depth) (Describes (table scene.entry) depth) (context scene.entry) operator operands.now last.now at) }
{
    match only(operands) {
        Some(first) => eval_pair(alloc, scene, depth, at, operator, first, last),
        None => eval_long(alloc, scene, depth, at, operator, operands, last),
    }
}

/// An infix operator on two operands.
#[cycle(evaluate)]
fn eval_pair(
    alloc: Global,
    scene: Scene<'_>,
    depth: u32,
    at: Place,
    operator: InfixOperator,
    first: &Term,
    last: &Term,
) -> Result<Value, EvalFault>
    requires value { has_value operator ≡ true }
    requires first { Reads (table scene) depth (context scene) first.now }
    requires last { Reads (table scene) depth (context scene) last.now }
    ensures { Tells result (InfixEvaluates (Evaluates (table scene.entry) depth) (Describes (table scene.entry) depth) (context scene.entry) operator (First first.now) last.now at) }
{
    match operator {
        InfixOperator::Implies => truth_value(implies(alloc, scene, depth, first, last)),
        InfixOperator::Equivalent => truth_value(equivalent(alloc, scene, depth, first, last)),
        InfixOperator::Member => truth_value(is_member(alloc, scene, depth, first, last)),
        InfixOperator::NotMember => denied(is_member(alloc, scene, depth, first, last)),
        InfixOperator::SubsetOrEqual => truth_value(is_subset(alloc, scene, depth, first, last)),
        InfixOperator::Interval => eval_interval(alloc, scene, depth, at, first, last),
        InfixOperator::CartesianProduct => eval_product(alloc, scene, depth, at, first, &[], last),
        InfixOperator::Union => eval_joined(alloc, scene, depth, at, operator, first, last),
        InfixOperator::Intersection => eval_joined(alloc, scene, depth, at, operator, first, last),
        InfixOperator::Difference => eval_joined(alloc, scene, depth, at, operator, first, last),
        InfixOperator::Equal => eval_two(alloc, scene, depth, at, operator, first, last),
        InfixOperator::NotEqual => eval_two(alloc, scene, depth, at, operator, first, last),
        InfixOperator::Less => eval_two(alloc, scene, depth, at, operator, first, last),
        InfixOperator::Greater => eval_two(alloc, scene, depth, at, operator, first, last),
        InfixOperator::LessOrEqual => eval_two(alloc, scene, depth, at, operator, first, last),
        InfixOperator::GreaterOrEqual => {
            eval_two(alloc, scene, depth, at, operator, first, last)
        }
        InfixOperator::MergedFunctions => {
            eval_two(alloc, scene, depth, at, operator, first, last)
        }
        InfixOperator::SingleFunction => {
            eval_two(alloc, scene, depth, at, operator, first, last)
        }
        InfixOperator::Plus => eval_two(alloc, scene, depth, at, operator, first, last),
        InfixOperator::Minus => eval_two(alloc, scene, depth, at, operator, first, last),
        InfixOperator::Times => eval_two(alloc, scene, depth, at, operator, first, last),
        InfixOperator::Quotient => eval_two(alloc, scene, depth, at, operator, first, last),
        InfixOperator::Remainder => eval_two(alloc, scene, depth, at, operator, first, last),
        InfixOperator::Power => eval_two(alloc, scene, depth, at, operator, first, last),
        InfixOperator::Concatenation => { eval_two(alloc, scene, depth, at, operator, first, last) }
        InfixOperator::LeadsTo => unreachable!(),
        InfixOperator::And => unreachable!(),
        InfixOperator::Or => unreachable!(),
    }
}

/// An operation on the values of two operands.
#[cycle(evaluate)]
fn eval_two(
    alloc: Global,
    scene: Scene<'_>,
    depth: u32,
    at: Place,
    operator: InfixOperator,
    first: &Term,
    last: &Term,
) -> Result<Value, EvalFault>
    requires operation { is_operation operator ≡ true }
    requires first { Reads (table scene) depth (context scene) first.now }
    requires last { Reads (table scene) depth (context scene) last.now }
    ensures { Tells result (Then (Evaluates (table scene.entry) depth (context scene.entry) first.now) (λ v. ChainEvaluates (Evaluates (table scene.entry) depth) (context scene.entry) operator (place_of first.now) v ((at, last.now) ∷ []))) }
{
    match eval(alloc, scene, depth, first) {
        Ok(left) => match eval(alloc, scene, depth, last) {
            Ok(right) => infix_on(alloc, operator, &left, &right, at, first, last),
            Err(fault) => Err(fault),
        },
        Err(fault) => Err(fault),
    }
}

#[cycle(evaluate)]
fn implies(
    alloc: Global,
    scene: Scene<'_>,
    depth: u32,
    left: &Term,
    right: &Term,
) -> Result<bool, EvalFault>
    requires left { Reads (table scene) depth (context scene) left.now }
    requires right { Reads (table scene) depth (context scene) right.now }
    ensures { Tells result (ImplicationHolds (Evaluates (table scene.entry) depth) (context scene.entry) left.now right.now) }
{
    match eval_truth(alloc, scene, depth, left) {
        Ok(true) => eval_truth(alloc, scene, depth, right),
        Ok(false) => Ok(true),
        Err(fault) => Err(fault),
    }
}

#[cycle(evaluate)]
fn equivalent(
    alloc: Global,
    scene: Scene<'_>,
    depth: u32,
    left: &Term,
    right: &Term,
) -> Result<bool, EvalFault>
    requires left { Reads (table scene) depth (context scene) left.now }
    requires right { Reads (table scene) depth (context scene) right.now }
    ensures { Tells result (AreEquivalent (Evaluates (table scene.entry) depth) (context scene.entry) left.now right.now) }
{
    match eval(alloc, scene, depth, left) {
        Ok(first) => match eval(alloc, scene, depth, right) {
            Ok(second) => are_equivalent(&first, &second, left, right),
            Err(fault) => Err(fault),
        },
        Err(fault) => Err(fault),
    }
}

#[cycle(evaluate)]
fn is_member(
    alloc: Global,
    scene: Scene<'_>,
    depth: u32,
    left: &Term,
    right: &Term,
) -> Result<bool, EvalFault>
    requires left { Reads (table scene) depth (context scene) left.now }
    requires right { Reads (table scene) depth (context scene) right.now }
    ensures { Tells result (IsMemberOf (Evaluates (table scene.entry) depth) (Describes (table scene.entry) depth) (context scene.entry) left.now right.now) }
{
    match eval(alloc, scene, depth, left) {
        Ok(value) => match describe_set(alloc, scene, depth, right) {
            Ok(set) => Ok(member(&set, &value)),
            Err(fault) => Err(fault),
        },
        Err(fault) => Err(fault),
    }
}

#[cycle(evaluate)]
fn is_subset(
    alloc: Global,
    scene: Scene<'_>,
    depth: u32,
    left: &Term,
    right: &Term,
) -> Result<bool, EvalFault>
    requires left { Reads (table scene) depth (context scene) left.now }
    requires right { Reads (table scene) depth (context scene) right.now }
    ensures { Tells result (IsSubsetOf (Evaluates (table scene.entry) depth) (Describes (table scene.entry) depth) (context scene.entry) left.now right.now) }
{
    match eval(alloc, scene, depth, left) {
        Ok(value) => match describe(alloc, scene, depth, right) {
            Ok(set) => is_part(&value, set, left, right),
            Err(fault) => Err(fault),
        },
        Err(fault) => Err(fault),
    }
}

/// An infix operator on three operands or more.
#[cycle(evaluate)]
fn eval_long(
    alloc: Global,
    scene: Scene<'_>,
    depth: u32,
    at: Place,
    operator: InfixOperator,
    operands: &Operands,
    last: &Term,
) -> Result<Value, EvalFault>
    requires chained { is_chained operator ≡ true }
    requires first { Reads (table scene) depth (context scene) (first_operand operands.now) }
    requires others { ReadsEach (Reads (table scene) depth) (context scene) (map (λ e. e.1) (other_operands (Next operands.now at last.now))) }
    ensures { Tells result (InfixEvaluates (Evaluates (table scene.entry) depth) (Describes (table scene.entry) depth) (context scene.entry) operator operands.now last.now at) }
{
    match operator {
        InfixOperator::Equal => { eval_chain(alloc, scene, depth, at, operator, operands, last) }
        InfixOperator::NotEqual => { eval_chain(alloc, scene, depth, at, operator, operands, last) }
        InfixOperator::Less => { eval_chain(alloc, scene, depth, at, operator, operands, last) }
        InfixOperator::Greater => { eval_chain(alloc, scene, depth, at, operator, operands, last) }
        InfixOperator::LessOrEqual => {
            eval_chain(alloc, scene, depth, at, operator, operands, last)
        }
        InfixOperator::GreaterOrEqual => {
            eval_chain(alloc, scene, depth, at, operator, operands, last)
        }
        InfixOperator::MergedFunctions => {
            eval_chain(alloc, scene, depth, at, operator, operands, last)
        }
        InfixOperator::SingleFunction => {
            eval_chain(alloc, scene, depth, at, operator, operands, last)
        }
        InfixOperator::Plus => { eval_chain(alloc, scene, depth, at, operator, operands, last) }
        InfixOperator::Minus => { eval_chain(alloc, scene, depth, at, operator, operands, last) }
        InfixOperator::Times => { eval_chain(alloc, scene, depth, at, operator, operands, last) }
        InfixOperator::Quotient => { eval_chain(alloc, scene, depth, at, operator, operands, last) }
        InfixOperator::Remainder => {
            eval_chain(alloc, scene, depth, at, operator, operands, last)
        }
        InfixOperator::Power => { eval_chain(alloc, scene, depth, at, operator, operands, last) }
        InfixOperator::Concatenation => {
            eval_chain(alloc, scene, depth, at, operator, operands, last)
        }
        InfixOperator::CartesianProduct => eval_product(
            alloc,
            scene,
            depth,
            at,
            first_of(operands),
            others_of(operands),
            last,
        ),
        InfixOperator::Union => eval_joins(alloc, scene, depth, at, operator, operands, last),
        InfixOperator::Intersection => eval_joins(
            alloc, scene, depth, at, operator, operands, last,
        ),
        InfixOperator::Difference => eval_joins(alloc, scene, depth, at, operator, operands, last),
        InfixOperator::Implies => unreachable!(),
        InfixOperator::Equivalent => unreachable!(),
        InfixOperator::Member => unreachable!(),
        InfixOperator::NotMember => unreachable!(),
        InfixOperator::SubsetOrEqual => unreachable!(),
        InfixOperator::Interval => unreachable!(),
        InfixOperator::LeadsTo => unreachable!(),
        InfixOperator::And => unreachable!(),
        InfixOperator::Or => unreachable!(),
    }
}

/// A chain of an operator on values, as if nested to the left.
#[cycle(evaluate)]
fn eval_chain(
    alloc: Global,
    scene: Scene<'_>,
    depth: u32,
    at: Place,
    operator: InfixOperator,
    operands: &Operands,
    last: &Term,
) -> Result<Value, EvalFault>
    requires operation { is_operation operator ≡ true }
    requires first { Reads (table scene) depth (context scene) (first_operand operands.now) }
    requires others { ReadsEach (Reads (table scene) depth) (context scene) (map (λ e. e.1) (other_operands (Next operands.now at last.now))) }
    ensures { Tells result (Then (Evaluates (table scene.entry) depth (context scene.entry) (first_operand operands.now)) (λ v. ChainEvaluates (Evaluates (table scene.entry) depth) (context scene.entry) operator (place_of (first_operand operands.now)) v (other_operands (Next operands.now at last.now)))) }
{
    let first = first_of(operands);
    match eval(alloc, scene, depth, first) {
        Ok(value) => eval_rest(alloc, scene, depth, at, operator, operands, last, value),
        Err(fault) => Err(fault),
    }
}

/// What a chain comes to behind the value of its first operand.
#[cycle(evaluate)]
fn eval_rest(
    alloc: Global,
    scene: Scene<'_>,
    depth: u32,
    at: Place,
    operator: InfixOperator,
    operands: &Operands,
    last: &Term,
    value: Value,
) -> Result<Value, EvalFault>
    requires operation { is_operation operator ≡ true }
    requires others { ReadsEach (Reads (table scene) depth) (context scene) (map (λ e. e.1) (other_operands (Next operands.now at last.now))) }
    ensures { Tells result (ChainEvaluates (Evaluates (table scene.entry) depth) (context scene.entry) operator (place_of (first_operand operands.now)) value (other_operands (Next operands.now at last.now))) }
{
    let mut place = place_at(first_of(operands));
    let mut value = value;
    let others = others_of(operands);
    for other in others {
        match eval_next(
            alloc,
            scene,
            depth,
            operator,
            &value,
            place,
            other.at,
            &other.value,
        ) {
            Ok(made) => value = made,
            Err(fault) => return Err(fault),
        }
        place = other.at;
    }
    eval_next(alloc, scene, depth, operator, &value, place, at, last)
}

/// An operation on a value, which stands at a place, and the value of the next operand.
#[cycle(evaluate)]
pub(crate) fn eval_next(
    alloc: Global,
    scene: Scene<'_>,
    depth: u32,
    operator: InfixOperator,
    value: &Value,
    place: Place,
    at: Place,
    operand: &Term,
) -> Result<Value, EvalFault>
    requires operation { is_operation operator ≡ true }
    requires read { Reads (table scene) depth (context scene) operand.now }
    ensures { Tells result (Then (Evaluates (table scene.entry) depth (context scene.entry) operand.now) (λ w. Operated (InfixAnswers operator value.now w) (place_in at (place ∷ place_of operand.now ∷ [])))) }
{
    match eval(alloc, scene, depth, operand) {
        Ok(right) => infix_at(alloc, operator, value, &right, at, place, operand),
        Err(fault) => Err(fault),
    }
}

#[cycle(evaluate)]
fn eval_interval(
    alloc: Global,
    scene: Scene<'_>,
    depth: u32,
    at: Place,
    first: &Term,
    last: &Term,
) -> Result<Value, EvalFault>
    requires first { Reads (table scene) depth (context scene) first.now }
    requires last { Reads (table scene) depth (context scene) last.now }
    ensures { Tells result (ListedAt at (Then (Evaluates (table scene.entry) depth (context scene.entry) first.now) (λ v. Then (Evaluates (table scene.entry) depth (context scene.entry) last.now) (IntervalDescribed at (place_of first.now) (place_of last.now) v)))) }
{
    match describe_interval(alloc, scene, depth, at, first, last) {
        Ok(set) => list_at(alloc, set, at),
        Err(fault) => Err(fault),
    }
}

#[cycle(evaluate)]
fn eval_joined(
    alloc: Global,
    scene: Scene<'_>,
    depth: u32,
    at: Place,
    operator: InfixOperator,
    first: &Term,
    last: &Term,
) -> Result<Value, EvalFault>
    requires operator { is_joining operator ≡ true }
    requires first { Reads (table scene) depth (context scene) first.now }
    requires last { Reads (table scene) depth (context scene) last.now }
    ensures { Tells result (ListedAt at (Then (Describes (table scene.entry) depth (context scene.entry) first.now) (λ d. ChainDescribed (Describes (table scene.entry) depth) (context scene.entry) operator (place_of first.now) d ((at, last.now) ∷ [])))) }
{
    match describe_two(alloc, scene, depth, at, operator, first, last) {
        Ok(set) => list_at(alloc, set, at),
        Err(fault) => Err(fault),
    }
}

#[cycle(evaluate)]
pub(crate) fn eval_sequences(
    alloc: Global,
    scene: Scene<'_>,
    depth: u32,
    at: Place,
    arguments: &Terms,
) -> Result<Value, EvalFault>
    requires one { length (terms_list arguments.now) ≡ 1 }
    requires read { ReadsEach (Reads (table scene) depth) (context scene) (terms_list arguments.now) }
    ensures { Tells result (ListedAt at (SequencesDescribed (Describes (table scene.entry) depth) (context scene.entry) (terms_list arguments.now))) }
{
    match describe_sequences(alloc, scene, depth, arguments) {
        Ok(set) => list_at(alloc, set, at),
        Err(fault) => Err(fault),
    }
}

#[cycle(evaluate)]
fn eval_joins(
    alloc: Global,
    scene: Scene<'_>,
    depth: u32,
    at: Place,
    operator: InfixOperator,
    operands: &Operands,
    last: &Term,
) -> Result<Value, EvalFault>
    requires operator { is_joining operator ≡ true }
    requires first { Reads (table scene) depth (context scene) (first_operand operands.now) }
    requires others { ReadsEach (Reads (table scene) depth) (context scene) (map (λ e. e.1) (other_operands (Next operands.now at last.now))) }
    ensures { Tells result (ListedAt at (Then (Describes (table scene.entry) depth (context scene.entry) (first_operand operands.now)) (λ d. ChainDescribed (Describes (table scene.entry) depth) (context scene.entry) operator (place_of (first_operand operands.now)) d (other_operands (Next operands.now at last.now))))) }
{
    match describe_chain(alloc, scene, depth, at, operator, operands, last) {
        Ok(set) => list_at(alloc, set, at),
        Err(fault) => Err(fault),
    }
}

#[cycle(evaluate)]
pub(crate) fn eval_records(
    alloc: Global,
    scene: Scene<'_>,
    depth: u32,
    at: Place,
    fields: &Fields,
) -> Result<Value, EvalFault>
    requires different { AreDifferent (map (λ f. f.0) (fields_list fields.now)) }
    requires read { ReadsEach (Reads (table scene) depth) (context scene) (map (λ f. f.1) (fields_list fields.now)) }
    ensures { Tells result (ListedAt at (RecordsDescribed (Describes (table scene.entry) depth) (context scene.entry) fields.now)) }
{
    match describe_records(alloc, scene, depth, fields) {
        Ok(set) => list_at(alloc, set, at),
        Err(fault) => Err(fault),
    }
}

#[cycle(evaluate)]
fn eval_product(
    alloc: Global,
    scene: Scene<'_>,
    depth: u32,
    at: Place,
    first: &Term,
    others: &[Operand],
    last: &Term,
) -> Result<Value, EvalFault>
    requires { ReadsEach (Reads (table scene) depth) (context scene) ((first.now ∷ map (λ x. x.value) others.now) ++ last.now ∷ []) }
    ensures { Tells result (ListedAt at (ProductDescribed (Describes (table scene.entry) depth) (context scene.entry) ((first.now ∷ map (λ x. x.value) others.now) ++ last.now ∷ []))) }
{
    match describe_product(alloc, scene, depth, first, others, last) {
        Ok(set) => list_at(alloc, set, at),
        Err(fault) => Err(fault),
    }
}
