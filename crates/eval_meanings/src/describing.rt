//! Described sets of parts that are described, with the fault at the place of the part or of the whole.

ghost use Rattle.std.specs.Prelude.{◌≡◌, ◌↔◌, Contains, IfOk, IsTrue, MatchOption, MatchResult, true};
ghost use Rattle.values_core.specs.Data.{Val};
ghost use Rattle.values_sets.specs.DescribedSets.{Listed};
ghost use Rattle.values_sets.specs.DescribedViews.{node_view};
ghost use Rattle.values_sets.specs.Membership.{Belongs};
ghost use Rattle.values_sets.specs.Soundness.{IsSound};
ghost use Rattle.eval_meanings.specs.Answers.{Tells, IsReady, IsUnlisted, is_joining};
ghost use Rattle.eval_meanings.specs.Outcomes.{Gives, Then};
ghost use Rattle.eval_meanings.specs.Sets.{IntervalDescribed, Joined, list_at, named_set, paired, set_at};

use crate::fault::EvalFault;
use crate::kinds::expect_set;
use crate::operate::infix;
use base_core::Place;
use names_terms::NamedSet;
use reading_trees::InfixOperator;
use std::alloc::{AllocError, Global};
use values_core::{EvalKind, OpFault, Value};
use values_sets::{Described, DescribedNode, list, member};

/// The set that has a name of its own.
pub fn named_set(name: NamedSet) -> Described
    ensures fine { result ≡ named_set name }
    ensures sound { IsSound result }
{
    let node = match name {
        NamedSet::Nat => DescribedNode::Nat,
        NamedSet::Int => DescribedNode::Int,
        NamedSet::Strings => DescribedNode::Strings,
        NamedSet::Booleans => DescribedNode::Booleans,
    };
    Described { node }
}

/// A part, which must be a set.
pub fn set_at(set: Described, at: Place) -> Result<Described, EvalFault>
    requires { IsReady set }
    ensures fine { Tells result (set_at at set) }
    ensures sound { IfOk result IsSound }
{
    match value_of(&set) {
        Some(value) => expect_set(value, at)?,
        None => {}
    }
    Ok(set)
}

/// The set where its elements are asked for.
pub fn list_at(alloc: Global, set: Described, at: Place) -> Result<Value, EvalFault>
    requires { IsReady set }
    ensures { Tells result (list_at at set) }
{
    match into_value(set) {
        Ok(value) => Ok(value),
        Err(set) => list_unlisted(alloc, set, at),
    }
}

/// The value that the set is listed as, or the set.
fn into_value(set: Described) -> Result<Value, Described>
    ensures { MatchResult result (λ v. set ≡ Listed v) (λ d. (d ≡ set) × IsUnlisted d) }
{
    if value_of(&set).is_none() {
        return Err(set);
    }
    let Described { node } = set;
    match node {
        DescribedNode::Listed(value) => Ok(value),
        _ => unreachable!(),
    }
}

/// The value that the set is listed as.
fn value_of(set: &Described) -> Option<&Value>
    ensures { MatchOption result (IsUnlisted set.now) (λ v. set.now ≡ Listed v.now) }
{
    match &set.node {
        DescribedNode::Listed(value) => Some(value),
        DescribedNode::Nat => None,
        DescribedNode::Int => None,
        DescribedNode::Strings => None,
        DescribedNode::Booleans => None,
        DescribedNode::SeqOf(_) => None,
        DescribedNode::PowerOf(_) => None,
        DescribedNode::Interval(_, _) => None,
        DescribedNode::Functions(_, _) => None,
        DescribedNode::Records(_) => None,
        DescribedNode::Product(_) => None,
        DescribedNode::Union(_, _) => None,
        DescribedNode::Inter(_, _) => None,
        DescribedNode::Minus(_, _) => None,
    }
}

/// A set that is no listed value, as one.
fn list_unlisted(alloc: Global, set: Described, at: Place) -> Result<Value, EvalFault>
    requires sound { IsReady set }
    requires unlisted { IsUnlisted set }
    ensures { Tells result (list_at at set) }
{
    match list(alloc, &set) {
        Ok(value) => Ok(value),
        Err(OpFault::Refused(kind, _)) => Err(EvalFault::Refused(kind, at)),
        Err(OpFault::NoMemory) => Err(EvalFault::NoMemory),
    }
}

/// `a..b`, of which the operands stand at p and q.
pub fn interval(left: &Value, right: &Value, p: Place, q: Place) -> Result<Described, EvalFault>
    ensures fine { (at : Place) → Tells result (IntervalDescribed at p q left.now right.now) }
    ensures ready { IfOk result IsReady }
{
    let Some(first) = left.as_int() else {
        return Err(EvalFault::Refused(EvalKind::NotInteger, p));
    };
    let Some(last) = right.as_int() else {
        return Err(EvalFault::Refused(EvalKind::NotInteger, q));
    };
    Ok(Described {
        node: DescribedNode::Interval(first, last),
    })
}

/// Two parts joined by `\cup`, `\cap` or `\`, whose operator stands at the place `at` and whose parts at p and q.
pub fn joined(
    alloc: Global,
    operator: InfixOperator,
    left: Described,
    right: Described,
    at: Place,
    p: Place,
    q: Place,
) -> Result<Described, EvalFault>
    requires operator { is_joining operator ≡ true }
    requires left { IsReady left }
    requires right { IsReady right }
    ensures fine { Tells result (Joined operator at p q left right) }
    ensures ready { IfOk result IsReady }
{
    match value_of(&left) {
        Some(a) => match value_of(&right) {
            Some(b) => joined_values(alloc, operator, a, b, at, p, q),
            None => described_pair(alloc, operator, left, right, p, q),
        },
        None => described_pair(alloc, operator, left, right, p, q),
    }
}

fn joined_values(
    alloc: Global,
    operator: InfixOperator,
    left: &Value,
    right: &Value,
    at: Place,
    p: Place,
    q: Place,
) -> Result<Described, EvalFault>
    requires operator { is_joining operator ≡ true }
    ensures fine { Tells result (Joined operator at p q (Listed left.now) (Listed right.now)) }
    ensures ready { IfOk result IsReady }
{
    let value = infix(alloc, operator, left, right, at, &[p, q])?;
    Ok(Described {
        node: DescribedNode::Listed(value),
    })
}

fn described_pair(
    alloc: Global,
    operator: InfixOperator,
    left: Described,
    right: Described,
    p: Place,
    q: Place,
) -> Result<Described, EvalFault>
    requires left { IsReady left }
    requires right { IsReady right }
    ensures fine { Tells result (Then (set_at p left) (λ x. Then (set_at q right) (λ y. Gives (paired operator x y)))) }
    ensures ready { IfOk result IsReady }
{
    let left = set_at(left, p)?;
    let right = set_at(right, q)?;
    let left = boxed(alloc, left)?;
    let right = boxed(alloc, right)?;
    Ok(Described {
        node: pair_node(operator, left, right),
    })
}

/// The description of `\cup`, `\cap` or `\` of two sets.
fn pair_node(operator: InfixOperator, left: Box<Described>, right: Box<Described>) -> DescribedNode
    ensures { node_view result ≡ paired operator left.value right.value }
{
    match operator {
        InfixOperator::Union => DescribedNode::Union(left, right),
        InfixOperator::Intersection => DescribedNode::Inter(left, right),
        _ => DescribedNode::Minus(left, right),
    }
}

/// Whether all members of a set are in a described set.
pub fn is_within(set: &Described, values: &[Value]) -> bool
    requires { IsSound set.now }
    ensures { IsTrue result ↔ ((v : Val) → Contains values.now v → Belongs set.now v) }
{
    for value in values {
        if !member(set, value) {
            return false;
        }
    }
    true
}

fn boxed(alloc: Global, set: Described) -> Result<Box<Described>, AllocError>
    ensures { IfOk result (λ b. b.value ≡ set) }
{
    Ok(Box::new(alloc, set)?)
}
