//! What is made of answers: of truth values, of the values of operands, and of the sets that operands describe.

ghost use Rattle.std.specs.Prelude.{◌≡◌, [], ◌∷◌, IfErr, IfOk, Ok, true};
ghost use Rattle.values_core.specs.Sets.{IsSet, items_of};
ghost use Rattle.values_sets.specs.DescribedSets.{Functions};
ghost use Rattle.eval_meanings.specs.Answers.{IsReady, Tells, is_joining, is_operation};
ghost use Rattle.eval_meanings.specs.Binders.{members_at};
ghost use Rattle.eval_meanings.specs.Meanings.{both_or_neither};
ghost use Rattle.eval_meanings.specs.Operations.{InfixAnswers};
ghost use Rattle.eval_meanings.specs.Outcomes.{Gives, Operated, Then, place_in, truth_at};
ghost use Rattle.eval_meanings.specs.Sets.{IntervalDescribed, IsWithin, Joined, set_at};
ghost use Rattle.names_terms.specs.Terms.{place_of};
ghost use Rattle.eval_parts.specs.Scenes.{Stops, denied_answer, truth_answer};

use crate::lists::boxed;
use base_core::Place;
use eval_meanings::{EvalFault, expect_set, infix, interval, is_within, joined, set_at, truth_at};
use names_terms::Term;
use reading_trees::InfixOperator;
use std::alloc::Global;
use values_core::Value;
use values_sets::{Described, DescribedNode};

/// A truth value as a value.
pub fn truth_value(answer: Result<bool, EvalFault>) -> Result<Value, EvalFault>
    ensures { result ≡ truth_answer answer }
{
    match answer {
        Ok(truth) => Ok(Value::boolean(truth)),
        Err(fault) => Err(fault),
    }
}

/// The other truth value, as a value.
pub fn denied(answer: Result<bool, EvalFault>) -> Result<Value, EvalFault>
    ensures { result ≡ denied_answer answer }
{
    match answer {
        Ok(truth) => Ok(Value::boolean(!truth)),
        Err(fault) => Err(fault),
    }
}

/// The functions from a set to a set, which are what these terms mean.
pub fn functions(
    alloc: Global,
    keys: Value,
    part: Described,
    domain: &Term,
    range: &Term,
) -> Result<Described, EvalFault>
    requires { IsReady part }
    ensures fine { Tells result (Then (members_at (place_of domain.now) keys) (λ vs. Then (set_at (place_of range.now) part) (λ e. Gives (Functions keys e)))) }
    ensures ready { IfOk result IsReady }
{
    match expect_set(&keys, domain.at) {
        Ok(()) => functions_into(alloc, keys, part, range),
        Err(fault) => {
            drop(part);
            Err(fault)
        }
    }
}

fn functions_into(
    alloc: Global,
    keys: Value,
    part: Described,
    range: &Term,
) -> Result<Described, EvalFault>
    requires keys { IsSet keys }
    requires part { IsReady part }
    ensures fine { Tells result (Then (set_at (place_of range.now) part) (λ e. Gives (Functions keys e))) }
    ensures ready { IfOk result IsReady }
{
    match set_at(part, range.at) {
        Ok(part) => Ok(Described {
            node: DescribedNode::Functions(keys, boxed(alloc, part)?),
        }),
        Err(fault) => Err(fault),
    }
}

/// An operation on the values of these terms.
pub fn infix_on(
    alloc: Global,
    operator: InfixOperator,
    left: &Value,
    right: &Value,
    at: Place,
    first: &Term,
    last: &Term,
) -> Result<Value, EvalFault>
    requires { is_operation operator ≡ true }
    ensures { Tells result (Operated (InfixAnswers operator left.now right.now) (place_in at (place_of first.now ∷ place_of last.now ∷ []))) }
{
    infix(alloc, operator, left, right, at, &[first.at, last.at])
}

/// Whether the values of these terms are the same truth value.
pub fn are_equivalent(a: &Value, b: &Value, left: &Term, right: &Term) -> Result<bool, EvalFault>
    ensures { Tells result (Then (truth_at (place_of left.now) a.now) (λ x. Then (truth_at (place_of right.now) b.now) (λ y. Gives (both_or_neither x y)))) }
{
    match truth_at(a, left.at) {
        Ok(first) => match truth_at(b, right.at) {
            Ok(second) => Ok(first == second),
            Err(fault) => Err(fault),
        },
        Err(fault) => Err(fault),
    }
}

/// Whether a value, which must be a set, is within a set; these are what the terms mean.
pub fn is_part(value: &Value, set: Described, left: &Term, right: &Term) -> Result<bool, EvalFault>
    requires { IsReady set }
    ensures { Tells result (Then (members_at (place_of left.now) value.now) (λ us. Then (set_at (place_of right.now) set) (λ e. IsWithin e value.now))) }
{
    match expect_set(value, left.at) {
        Ok(()) => has_part(value, set, right),
        Err(fault) => {
            drop(set);
            Err(fault)
        }
    }
}

fn has_part(value: &Value, set: Described, right: &Term) -> Result<bool, EvalFault>
    requires { IsReady set }
    ensures { Tells result (Then (set_at (place_of right.now) set) (λ e. IsWithin e value.now)) }
{
    match set_at(set, right.at) {
        Ok(set) => {
            let within = is_within(&set, value.members());
            drop(set);
            Ok(within)
        }
        Err(fault) => Err(fault),
    }
}

/// The value, which must be a set, and is what the term means.
pub fn set_in(value: Value, term: &Term) -> Result<Value, EvalFault>
    ensures fine { IfOk result (λ v. (v ≡ value) × members_at (place_of term.now) value (Ok (items_of v))) }
    ensures fault { IfErr result (Stops (members_at (place_of term.now) value)) }
{
    match expect_set(&value, term.at) {
        Ok(()) => Ok(value),
        Err(fault) => Err(fault),
    }
}

/// An operation on a value, which stands at a place, and the value of a term.
pub fn infix_at(
    alloc: Global,
    operator: InfixOperator,
    left: &Value,
    right: &Value,
    at: Place,
    place: Place,
    operand: &Term,
) -> Result<Value, EvalFault>
    requires { is_operation operator ≡ true }
    ensures { Tells result (Operated (InfixAnswers operator left.now right.now) (place_in at (place ∷ place_of operand.now ∷ []))) }
{
    infix(alloc, operator, left, right, at, &[place, operand.at])
}

/// `a..b` of the values of these terms.
pub fn interval_of(
    left: &Value,
    right: &Value,
    first: &Term,
    last: &Term,
) -> Result<Described, EvalFault>
    ensures fine { (at : Place) → Tells result (IntervalDescribed at (place_of first.now) (place_of last.now) left.now right.now) }
    ensures ready { IfOk result IsReady }
{
    interval(left, right, first.at, last.at)
}

/// Two parts joined, which are what these terms mean.
pub fn joined_of(
    alloc: Global,
    operator: InfixOperator,
    left: Described,
    right: Described,
    at: Place,
    first: &Term,
    last: &Term,
) -> Result<Described, EvalFault>
    requires operator { is_joining operator ≡ true }
    requires left { IsReady left }
    requires right { IsReady right }
    ensures fine { Tells result (Joined operator at (place_of first.now) (place_of last.now) left right) }
    ensures ready { IfOk result IsReady }
{
    joined(alloc, operator, left, right, at, first.at, last.at)
}

/// A set, whose term stands at a place, joined with the set that a term means.
pub fn joined_at(
    alloc: Global,
    operator: InfixOperator,
    left: Described,
    right: Described,
    at: Place,
    place: Place,
    operand: &Term,
) -> Result<Described, EvalFault>
    requires operator { is_joining operator ≡ true }
    requires left { IsReady left }
    requires right { IsReady right }
    ensures fine { Tells result (Joined operator at place (place_of operand.now) left right) }
    ensures ready { IfOk result IsReady }
{
    joined(alloc, operator, left, right, at, place, operand.at)
}
