//! Bounds of described sets.

ghost use Rattle.std.specs.Prelude.{IfSome};
ghost use Rattle.values_core.specs.Sets.{IsSet};
ghost use Rattle.values_sets.specs.DescribedSets.{Functions, Inter, Minus, PowerOf, Product, Records, Union};
ghost use Rattle.values_sets.specs.Soundness.{FieldsAreSound, IsSound, PartsAreSound};
ghost use Rattle.values_set_bounds.specs.Bounds.{IsListedWithin};
ghost use Rattle.values_set_bounds.specs.PartBounds.{AreBounded, FieldsAreBounded};

use crate::sizes::{
    Bounds, around, beside, of_functions, of_interval, of_subsets, of_union, of_value,
};
use base_core::limits::MAX_MEMBERS;
use values_core::Value;
use values_sets::{Described, DescribedNode, Fields, Parts};

/// Bounds of the set, if it is sure that it can be listed. Nothing is listed for it.
#[cycle(bounds)]
pub fn bounds_of(set: &Described) -> Option<Bounds>
    requires { IsSound set.now }
    ensures { IfSome result (λ b. IsListedWithin set.now b.members b.levels) }
{
    match &set.node {
        DescribedNode::Nat => None,
        DescribedNode::Int => None,
        DescribedNode::Strings => None,
        DescribedNode::Booleans => Some(Bounds {
            members: 2,
            levels: 1,
        }),
        DescribedNode::SeqOf(_) => None,
        DescribedNode::PowerOf(part) => bounds_of_subsets(part),
        DescribedNode::Interval(first, last) => of_interval(*first, *last),
        DescribedNode::Functions(domain, part) => bounds_of_functions(domain, part),
        DescribedNode::Records(fields) => bounds_of_records(fields),
        DescribedNode::Product(parts) => bounds_of_tuples(parts),
        DescribedNode::Union(left, right) => bounds_of_union(left, right),
        DescribedNode::Inter(left, right) => bounds_of_both(left, right),
        DescribedNode::Minus(left, right) => bounds_of_left_alone(left, right),
        DescribedNode::Listed(all) => Some(of_value(all)),
    }
}

#[cycle(bounds)]
fn bounds_of_subsets(part: &Described) -> Option<Bounds>
    requires { IsSound part.now }
    ensures { IfSome result (λ b. IsListedWithin (PowerOf part.now) b.members b.levels) }
{
    match bounds_of(part) {
        Some(inside) => of_subsets(inside),
        None => None,
    }
}

#[cycle(bounds)]
fn bounds_of_functions(domain: &Value, part: &Described) -> Option<Bounds>
    requires set { IsSet domain.now }
    requires sound { IsSound part.now }
    ensures { IfSome result (λ b. IsListedWithin (Functions domain.now part.now) b.members b.levels) }
{
    match bounds_of(part) {
        Some(inside) => of_functions(domain, inside),
        None => None,
    }
}

#[cycle(bounds)]
fn bounds_of_union(left: &Described, right: &Described) -> Option<Bounds>
    requires left { IsSound left.now }
    requires right { IsSound right.now }
    ensures { IfSome result (λ b. IsListedWithin (Union left.now right.now) b.members b.levels) }
{
    match bounds_of(left) {
        Some(first) => match bounds_of(right) {
            Some(second) => of_union(first, second),
            None => None,
        },
        None => None,
    }
}

/// What is in both sets is in the left one.
#[cycle(bounds)]
fn bounds_of_both(left: &Described, right: &Described) -> Option<Bounds>
    requires { IsSound left.now }
    ensures { IfSome result (λ b. IsListedWithin (Inter left.now right.now) b.members b.levels) }
{
    let _ = &right.node;
    match bounds_of(left) {
        Some(all) => Some(all),
        None => None,
    }
}

/// So is what is in the left one alone.
#[cycle(bounds)]
fn bounds_of_left_alone(left: &Described, right: &Described) -> Option<Bounds>
    requires { IsSound left.now }
    ensures { IfSome result (λ b. IsListedWithin (Minus left.now right.now) b.members b.levels) }
{
    let _ = &right.node;
    match bounds_of(left) {
        Some(all) => Some(all),
        None => None,
    }
}

#[cycle(bounds)]
fn bounds_of_tuples(parts: &Parts) -> Option<Bounds>
    requires { PartsAreSound parts.now }
    ensures { IfSome result (λ b. IsListedWithin (Product parts.now) b.members b.levels) }
{
    match bounds_of_parts(parts) {
        Some(inside) => Some(around(inside)),
        None => None,
    }
}

#[cycle(bounds)]
fn bounds_of_records(fields: &Fields) -> Option<Bounds>
    requires { IsSound (Records fields.now) }
    ensures { IfSome result (λ b. IsListedWithin (Records fields.now) b.members b.levels) }
{
    match bounds_of_fields(fields) {
        Some(inside) => Some(around(inside)),
        None => None,
    }
}

/// In how many ways there is one member of each part, and how deep the parts are.
#[cycle(bounds)]
fn bounds_of_parts(parts: &Parts) -> Option<Bounds>
    requires { PartsAreSound parts.now }
    ensures { IfSome result (λ b. AreBounded parts.now b.members b.levels) }
{
    let items = parts.items();
    if items.len() > MAX_MEMBERS {
        return None;
    }
    let mut inside = Bounds {
        members: 1,
        levels: 1,
    };
    for part in items {
        match bounds_of(part) {
            Some(other) => match beside(inside, other) {
                Some(more) => inside = more,
                None => return None,
            },
            None => return None,
        }
    }
    Some(inside)
}

/// The same of the sets of the fields.
#[cycle(bounds)]
fn bounds_of_fields(fields: &Fields) -> Option<Bounds>
    requires { FieldsAreSound fields.now }
    ensures { IfSome result (λ b. FieldsAreBounded fields.now b.members b.levels) }
{
    let items = fields.items();
    if items.len() > MAX_MEMBERS {
        return None;
    }
    let mut inside = Bounds {
        members: 1,
        levels: 1,
    };
    for field in items {
        field.name.is_value();
        match bounds_of(&field.part) {
            Some(other) => match beside(inside, other) {
                Some(more) => inside = more,
                None => return None,
            },
            None => return None,
        }
    }
    Some(inside)
}
