//! Parts that do not hold, which may be passed over.

ghost use Rattle.std.specs.Prelude.{◌≡◌, IfOk, None, Some, if◌then◌else◌, map};
ghost use Rattle.names_terms.specs.TermViews.{node_view};
ghost use Rattle.names_terms.specs.Terms.{Prefix, Term};
ghost use Rattle.actions_rows.specs.Rows.{part_term};
ghost use Rattle.steps_why_branches.specs.PassedOver.{behind_one, is_unchanged, keeps, may_spare, same_place};
ghost use Rattle.steps_why_branches.specs.declared.sparing.Passing.TheVariants.{At, OnePlace};
ghost use Rattle.steps_why_branches.specs.declared.why.Ended.TheVariants.{Passed};
ghost use Rattle.steps_why_walk.specs.Ends.{after_first, fail_end, with_first};

use crate::ends::ends_at;
use actions_rows::{Part, part_place};
use base_core::{NoMemory, Place};
use names_terms::{Term, TermNode};
use reading_trees::PrefixOperator;
use states_core::Partial;
use std::alloc::Global;
use steps_why_branches::{Ended, Passing, Slots, Spared, Sparing, Why, WhyKind};
use values_core::Value;

/// It is gone through where the part holds, and else it fails.
pub fn held_end(
    alloc: Global,
    holds: bool,
    sparing: Sparing,
    slots: &[&Value],
    part: Part<'_>,
    places: Partial,
    reason: WhyKind,
    wanted: Option<Value>,
) -> Result<Ended, NoMemory>
    ensures { IfOk result (λ end. end ≡ (if holds then Passed places None else fail_end sparing places (map (λ v. v.now) slots.now) (part_term part.entry) reason wanted)) }
{
    if holds {
        drop(wanted);
        return Ok(Ended::Passed(places, None));
    }
    failed_end(alloc, sparing, slots, part, places, reason, wanted)
}

/// A part that does not hold is passed over where it may be, and what is filled stays as it is; else the branch ends there.
fn failed_end(
    alloc: Global,
    sparing: Sparing,
    slots: &[&Value],
    part: Part<'_>,
    places: Partial,
    reason: WhyKind,
    wanted: Option<Value>,
) -> Result<Ended, NoMemory>
    ensures { IfOk result (λ end. end ≡ fail_end sparing places (map (λ v. v.now) slots.now) (part_term part.entry) reason wanted) }
{
    if may_spare(sparing, part) {
        let slots = Slots::of(alloc, slots)?;
        let spared = Spared {
            why: Why {
                at: Some(part_place(part)),
                reason,
            },
            call: sparing.call,
            slots,
            wanted,
        };
        return Ok(Ended::Passed(places, Some(spared)));
    }
    Ok(ends_at(part_place(part), reason))
}

/// Whether the part is passed over where it does not hold.
fn may_spare(sparing: Sparing, part: Part<'_>) -> bool
    ensures { result ≡ may_spare sparing.at (part_term part.entry) }
{
    match sparing.at {
        Passing::Nothing => false,
        Passing::At(at) => spares_at(at, part),
        Passing::OnePlace => !is_unchanged(part),
    }
}

fn spares_at(at: Place, part: Part<'_>) -> bool
    ensures { result ≡ may_spare (At at) (part_term part.entry) }
{
    if same_place(at, part_place(part)) {
        return !is_unchanged(part);
    }
    false
}

fn same_place(a: Place, b: Place) -> bool
    ensures { result ≡ same_place a b }
{
    a == b
}

/// Whether it says of variables that they stay the same.
fn is_unchanged(part: Part<'_>) -> bool
    ensures { result ≡ is_unchanged (part_term part.entry) }
{
    match part {
        Part::Plain(term) => term_keeps(term),
        Part::Unchanged(_, _) => true,
    }
}

fn term_keeps(term: &Term) -> bool
    ensures { result ≡ is_unchanged term.now }
{
    node_keeps(&*term.node)
}

fn node_keeps(node: &TermNode) -> bool
    ensures { result ≡ keeps (node_view node.now) }
{
    match node {
        TermNode::Prefix(operator, _) => operator_keeps(*operator),
        TermNode::All(_) => false,
        TermNode::Any(_) => false,
        TermNode::Quantified(_, _, _) => false,
        TermNode::If(_, _, _) => false,
        TermNode::Case(_, None) => false,
        TermNode::Case(_, Some(_)) => false,
        TermNode::Scoped(_, _) => false,
        TermNode::Parenthesized(_) => false,
        TermNode::Use(_, _) => false,
        TermNode::BoxAction(_, _) => false,
        TermNode::AngleAction(_, _) => false,
        TermNode::Infix(_, _, _) => false,
        TermNode::Known(_) => false,
        TermNode::Named(_) => false,
        TermNode::Variable(_) => false,
        TermNode::Slot(_) => false,
        TermNode::Standard(_, _) => false,
        TermNode::Postfix(_, _, _) => false,
        TermNode::SetOf(_) => false,
        TermNode::Filter(_, _) => false,
        TermNode::Map(_, _) => false,
        TermNode::Tuple(_) => false,
        TermNode::Function(_, _) => false,
        TermNode::FunctionSet(_, _) => false,
        TermNode::Record(_) => false,
        TermNode::RecordSet(_) => false,
        TermNode::Except(_, _) => false,
        TermNode::Choose(_, _) => false,
        TermNode::Fairness(_, _) => false,
    }
}

/// Whether the operator is UNCHANGED.
fn operator_keeps(operator: PrefixOperator) -> bool
    ensures { (e : Term) → result ≡ keeps (Prefix operator e) }
{
    match operator {
        PrefixOperator::Unchanged => true,
        _ => false,
    }
}

/// What may be passed over behind a branch in which this was passed over first, if anything was.
pub fn after_first(sparing: Sparing, spared: &Option<Spared>) -> Sparing
    ensures { result ≡ after_first spared.now sparing }
{
    match spared {
        None => sparing,
        Some(first) => Sparing {
            at: behind_one(first.why.at, sparing.at),
            call: sparing.call,
        },
    }
}

/// The same behind a part at this place.
fn behind_one(at: Option<Place>, passing: Passing) -> Passing
    ensures { result ≡ behind_one at passing }
{
    match passing {
        Passing::Nothing => Passing::Nothing,
        Passing::At(there) => Passing::At(there),
        Passing::OnePlace => settled(at),
    }
}

/// The place that it is then, where those at one place may be passed over.
fn settled(at: Option<Place>) -> Passing
    ensures { result ≡ behind_one at OnePlace }
{
    match at {
        None => Passing::OnePlace,
        Some(there) => Passing::At(there),
    }
}

/// The ends of one part more, behind a branch in which this was passed over first, if anything was.
pub fn behind(
    alloc: Global,
    ends: Vec<Ended>,
    spared: Option<Spared>,
) -> Result<Vec<Ended>, NoMemory>
    ensures { IfOk result (λ all. all.items ≡ map (with_first spared) ends.items) }
{
    match spared {
        None => Ok(ends),
        Some(first) => behind_first(alloc, ends, &first),
    }
}

/// The same where something was.
fn behind_first(alloc: Global, ends: Vec<Ended>, first: &Spared) -> Result<Vec<Ended>, NoMemory>
    ensures { IfOk result (λ all. all.items ≡ map (with_first (Some first.now)) ends.items) }
{
    let mut all = Vec::with_capacity(alloc, ends.len())?;
    for end in ends {
        match end_behind(alloc, end, first) {
            Ok(further) => all.push(further)?,
            Err(error) => return Err(error),
        }
    }
    Ok(all)
}

/// The same of one end.
fn end_behind(alloc: Global, end: Ended, first: &Spared) -> Result<Ended, NoMemory>
    ensures { IfOk result (λ further. further ≡ with_first (Some first.now) end) }
{
    match end {
        Ended::Passed(places, other) => {
            drop(other);
            let same = first.copy(alloc)?;
            Ok(Ended::Passed(places, Some(same)))
        }
        Ended::Ends(why) => Ok(Ended::Ends(why)),
    }
}
