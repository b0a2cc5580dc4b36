//! Whether a value belongs to a described set.

ghost use Rattle.std.specs.Prelude.{◌≡◌, ◌⊎◌, ◌↔◌, ℤ, ◌≤ℤ◌, IsTrue};
ghost use Rattle.values_core.specs.Functions.{IsFunction};
ghost use Rattle.values_core.specs.Sets.{IsSet};
ghost use Rattle.values_sets.specs.DescribedSets.{Booleans, Functions, Int, Interval, Nat, PowerOf, Product, Records, SeqOf, Strings};
ghost use Rattle.values_sets.specs.Membership.{Belongs};
ghost use Rattle.values_sets.specs.Soundness.{IsSound};

use crate::described::{Described, DescribedNode, Fields, Parts};
use values_core::{Value, ValueKind};

/// Whether the value belongs to the set. Nothing is listed, and a value of another kind is no member.
#[cycle(member)]
pub fn member(set: &Described, v: &Value) -> bool
    requires { IsSound set.now }
    ensures { IsTrue result ↔ Belongs set.now v.now }
{
    match &set.node {
        DescribedNode::Nat => is_natural(v),
        DescribedNode::Int => is_integer(v),
        DescribedNode::Strings => is_string(v),
        DescribedNode::Booleans => is_truth_value(v),
        DescribedNode::SeqOf(part) => is_sequence_of(part, v),
        DescribedNode::PowerOf(part) => is_set_of(part, v),
        DescribedNode::Interval(first, last) => is_between(*first, *last, v),
        DescribedNode::Functions(domain, part) => is_function_into(domain, part, v),
        DescribedNode::Records(fields) => is_record(fields, v),
        DescribedNode::Product(parts) => is_tuple(parts, v),
        DescribedNode::Union(left, right) => is_in_either(left, right, v),
        DescribedNode::Inter(left, right) => is_in_both(left, right, v),
        DescribedNode::Minus(left, right) => is_in_left_alone(left, right, v),
        DescribedNode::Listed(all) => all.contains(v),
    }
}

/// Whether it is a sequence of values that belong to the set.
#[cycle(member)]
fn is_sequence_of(part: &Described, v: &Value) -> bool
    requires { IsSound part.now }
    ensures { IsTrue result ↔ Belongs (SeqOf part.now) v.now }
{
    if !v.is_sequence() {
        return false;
    }
    for i in 0..v.len() {
        match v.value_at(i) {
            Some(item) => {
                if !member(part, item) {
                    return false;
                }
            }
            None => {}
        }
    }
    true
}

/// Whether it is a set of values that belong to the set.
#[cycle(member)]
fn is_set_of(part: &Described, v: &Value) -> bool
    requires { IsSound part.now }
    ensures { IsTrue result ↔ Belongs (PowerOf part.now) v.now }
{
    if !is_set(v) {
        return false;
    }
    let items = v.members();
    for item in items {
        if !member(part, item) {
            return false;
        }
    }
    true
}

/// Whether it is a function on the domain with values that belong to the set.
///
/// It has as many pairs as the domain has members, and is defined at each of them; so it is defined nowhere else.
#[cycle(member)]
fn is_function_into(domain: &Value, part: &Described, v: &Value) -> bool
    requires set { IsSet domain.now }
    requires sound { IsSound part.now }
    ensures { IsTrue result ↔ Belongs (Functions domain.now part.now) v.now }
{
    domain.is_value();
    v.is_value();
    if !is_function(v) {
        return false;
    }
    let keys = domain.members();
    if v.len() != keys.len() {
        return false;
    }
    for key in keys {
        match v.apply(key) {
            Some(item) => {
                if !member(part, item) {
                    return false;
                }
            }
            None => return false,
        }
    }
    true
}

/// Whether it is a record with just these fields, each of a value that belongs to its part.
///
/// It has as many pairs as there are fields, and each of the names; so it has no other.
#[cycle(member)]
fn is_record(fields: &Fields, v: &Value) -> bool
    requires { IsSound (Records fields.now) }
    ensures { IsTrue result ↔ Belongs (Records fields.now) v.now }
{
    v.is_value();
    if !is_function(v) {
        return false;
    }
    let items = fields.items();
    if v.len() != items.len() {
        return false;
    }
    for field in items {
        match v.apply(&field.name) {
            Some(item) => {
                if !member(&field.part, item) {
                    return false;
                }
            }
            None => return false,
        }
    }
    true
}

/// Whether it is a tuple of one value of each part.
#[cycle(member)]
fn is_tuple(parts: &Parts, v: &Value) -> bool
    requires { IsSound (Product parts.now) }
    ensures { IsTrue result ↔ Belongs (Product parts.now) v.now }
{
    if !v.is_sequence() {
        return false;
    }
    let items = parts.items();
    if v.len() != items.len() {
        return false;
    }
    for i in 0..items.len() {
        match v.value_at(i) {
            Some(item) => {
                if !member(&items[i], item) {
                    return false;
                }
            }
            None => return false,
        }
    }
    true
}

#[cycle(member)]
fn is_in_either(left: &Described, right: &Described, v: &Value) -> bool
    requires left { IsSound left.now }
    requires right { IsSound right.now }
    ensures { IsTrue result ↔ (Belongs left.now v.now ⊎ Belongs right.now v.now) }
{
    if member(left, v) {
        return true;
    }
    member(right, v)
}

#[cycle(member)]
fn is_in_both(left: &Described, right: &Described, v: &Value) -> bool
    requires left { IsSound left.now }
    requires right { IsSound right.now }
    ensures { IsTrue result ↔ (Belongs left.now v.now × Belongs right.now v.now) }
{
    if !member(left, v) {
        return false;
    }
    member(right, v)
}

#[cycle(member)]
fn is_in_left_alone(left: &Described, right: &Described, v: &Value) -> bool
    requires left { IsSound left.now }
    requires right { IsSound right.now }
    ensures { IsTrue result ↔ (Belongs left.now v.now × ¬ Belongs right.now v.now) }
{
    if !member(left, v) {
        return false;
    }
    !member(right, v)
}

fn is_natural(v: &Value) -> bool
    ensures { IsTrue result ↔ Belongs Nat v.now }
{
    match v.as_int() {
        Some(n) => n >= 0,
        None => false,
    }
}

fn is_integer(v: &Value) -> bool
    ensures { IsTrue result ↔ Belongs Int v.now }
{
    match v.kind() {
        ValueKind::Int => true,
        _ => false,
    }
}

fn is_string(v: &Value) -> bool
    ensures { IsTrue result ↔ Belongs Strings v.now }
{
    match v.kind() {
        ValueKind::String => true,
        _ => false,
    }
}

fn is_truth_value(v: &Value) -> bool
    ensures { IsTrue result ↔ Belongs Booleans v.now }
{
    match v.kind() {
        ValueKind::Bool => true,
        _ => false,
    }
}

fn is_between(first: i64, last: i64, v: &Value) -> bool
    ensures { IsTrue result ↔ Belongs (Interval first last) v.now }
{
    match v.as_int() {
        Some(n) => first <= n && n <= last,
        None => false,
    }
}

pub(crate) fn is_set(v: &Value) -> bool
    ensures { IsTrue result ↔ IsSet v.now }
{
    match v.kind() {
        ValueKind::Set => true,
        _ => false,
    }
}

fn is_function(v: &Value) -> bool
    ensures { IsTrue result ↔ IsFunction v.now }
{
    match v.kind() {
        ValueKind::Function => true,
        _ => false,
    }
}
