//! From values to described sets, and back.

ghost use Rattle.std.specs.Prelude.{◌≡◌, ◌++◌, ◌↔◌, [], ◌∷◌, Contains, IfOk, IsTrue, MatchBool, MatchResult, OnOk, if◌then◌else◌, length, false, true};
ghost use Rattle.values_core.specs.Data.{Val, truth};
ghost use Rattle.values_core.specs.Products.{InProduct, InRecordSet};
ghost use Rattle.values_core.specs.SetOperations.{GivesSet};
ghost use Rattle.values_core.specs.Sets.{IsSet};
ghost use Rattle.values_core.specs.declared.fault.EvalKind.TheVariants.{NotFinite};
ghost use Rattle.values_core.specs.declared.fault.OpFault.TheVariants.{NoMemory, Refused};
ghost use Rattle.values_sets.specs.DescribedSets.{Booleans, Functions, Inter, Interval, Listed, Minus, PowerOf, Product, Records, Union};
ghost use Rattle.values_sets.specs.ListedParts.{AreListings, IsChosen, MayBeRefused, sets_of, text_in, texts_of};
ghost use Rattle.values_sets.specs.Listings.{Collects, IsListed, Listing, Lists, ListsAsOne, ListsItsMembers, fields_are_finite, is_finite, parts_are_finite};
ghost use Rattle.values_sets.specs.Membership.{Belongs, names_of};
ghost use Rattle.values_sets.specs.Soundness.{FieldsAreSound, IsSound, IsString, PartsAreSound};

use crate::described::{Described, DescribedNode, Fields, Parts};
use crate::members::{is_set, member};
use base_core::Text;
use base_core::limits::MAX_MEMBERS;
use std::alloc::{AllocError, Global};
use values_core::{EvalKind, OpFault, Value};
use values_operations::{function_set, interval, powerset, records, tuples, union};

/// The set that the value is, as a described set.
pub fn listed(v: Value) -> Result<Described, OpFault>
    ensures { IsListed v result }
{
    if !is_set(&v) {
        return Err(OpFault::Refused(EvalKind::NotSet, 0));
    }
    Ok(Described {
        node: DescribedNode::Listed(v),
    })
}

/// The set as a value. A set without end is refused before anything is listed.
pub fn list(alloc: Global, set: &Described) -> Result<Value, OpFault>
    requires { IsSound set.now }
    ensures { Lists set.now result }
{
    if !has_end(set) {
        return Err(endless());
    }
    listing(alloc, set)
}

/// What a set is listed as.
pub fn list_laws()
    ensures members { ListsItsMembers }
    ensures one { ListsAsOne }
{}

/// The fault of a set without end.
fn endless() -> OpFault
    ensures { result ≡ Refused NotFinite 0 }
{
    OpFault::Refused(EvalKind::NotFinite, 0)
}

/// Whether neither the set nor a part that has to be listed for it is without end.
#[cycle(finite)]
fn has_end(set: &Described) -> bool
    ensures { result ≡ is_finite set.now }
{
    match &set.node {
        DescribedNode::Nat => false,
        DescribedNode::Int => false,
        DescribedNode::Strings => false,
        DescribedNode::Booleans => true,
        DescribedNode::SeqOf(_) => false,
        DescribedNode::PowerOf(part) => has_end(part),
        DescribedNode::Interval(_, _) => true,
        DescribedNode::Functions(_, part) => has_end(part),
        DescribedNode::Records(fields) => fields_have_end(fields),
        DescribedNode::Product(parts) => parts_have_end(parts),
        DescribedNode::Union(left, right) => both_have_end(left, right),
        DescribedNode::Inter(left, _) => has_end(left),
        DescribedNode::Minus(left, _) => has_end(left),
        DescribedNode::Listed(_) => true,
    }
}

#[cycle(finite)]
fn both_have_end(left: &Described, right: &Described) -> bool
    ensures { result ≡ is_finite (Union left.now right.now) }
{
    if !has_end(left) {
        return false;
    }
    has_end(right)
}

#[cycle(finite)]
fn fields_have_end(fields: &Fields) -> bool
    ensures { result ≡ fields_are_finite fields.now }
{
    let items = fields.items();
    for field in items {
        if !has_end(&field.part) {
            return false;
        }
    }
    true
}

#[cycle(finite)]
fn parts_have_end(parts: &Parts) -> bool
    ensures { result ≡ parts_are_finite parts.now }
{
    let items = parts.items();
    for part in items {
        if !has_end(part) {
            return false;
        }
    }
    true
}

/// The set as a value, where all parts that have to be listed have an end.
#[cycle(listing)]
fn listing(alloc: Global, set: &Described) -> Result<Value, OpFault>
    requires sound { IsSound set.now }
    requires finite { is_finite set.now ≡ true }
    ensures { Listing set.now result }
{
    match &set.node {
        DescribedNode::Nat => Err(endless()),
        DescribedNode::Int => Err(endless()),
        DescribedNode::Strings => Err(endless()),
        DescribedNode::Booleans => truth_values(alloc),
        DescribedNode::SeqOf(_) => Err(endless()),
        DescribedNode::PowerOf(part) => subsets(alloc, part),
        DescribedNode::Interval(first, last) => integers(alloc, *first, *last),
        DescribedNode::Functions(domain, part) => functions_into(alloc, domain, part),
        DescribedNode::Records(fields) => records_of(alloc, fields),
        DescribedNode::Product(parts) => tuples_of(alloc, parts),
        DescribedNode::Union(left, right) => either(alloc, left, right),
        DescribedNode::Inter(left, right) => both(alloc, left, right),
        DescribedNode::Minus(left, right) => left_alone(alloc, left, right),
        DescribedNode::Listed(all) => same_set(all),
    }
}

#[cycle(listing)]
fn subsets(alloc: Global, part: &Described) -> Result<Value, OpFault>
    requires sound { IsSound part.now }
    requires finite { is_finite part.now ≡ true }
    ensures { Listing (PowerOf part.now) result }
{
    match listing(alloc, part) {
        Ok(members) => powerset(alloc, &members),
        Err(fault) => Err(fault),
    }
}

#[cycle(listing)]
fn functions_into(alloc: Global, domain: &Value, part: &Described) -> Result<Value, OpFault>
    requires set { IsSet domain.now }
    requires sound { IsSound part.now }
    requires finite { is_finite part.now ≡ true }
    ensures { Listing (Functions domain.now part.now) result }
{
    match listing(alloc, part) {
        Ok(range) => function_set(alloc, domain, &range),
        Err(fault) => Err(fault),
    }
}

#[cycle(listing)]
fn either(alloc: Global, left: &Described, right: &Described) -> Result<Value, OpFault>
    requires sound { IsSound (Union left.now right.now) }
    requires finite { is_finite (Union left.now right.now) ≡ true }
    ensures { Listing (Union left.now right.now) result }
{
    match listing(alloc, left) {
        Ok(first) => match listing(alloc, right) {
            Ok(second) => union(alloc, &first, &second),
            Err(fault) => Err(fault),
        },
        Err(fault) => Err(fault),
    }
}

#[cycle(listing)]
fn both(alloc: Global, left: &Described, right: &Described) -> Result<Value, OpFault>
    requires sound { IsSound (Inter left.now right.now) }
    requires finite { is_finite left.now ≡ true }
    ensures { Listing (Inter left.now right.now) result }
{
    match listing(alloc, left) {
        Ok(all) => chosen(alloc, &all, right, true),
        Err(fault) => Err(fault),
    }
}

#[cycle(listing)]
fn left_alone(alloc: Global, left: &Described, right: &Described) -> Result<Value, OpFault>
    requires sound { IsSound (Minus left.now right.now) }
    requires finite { is_finite left.now ≡ true }
    ensures { Listing (Minus left.now right.now) result }
{
    match listing(alloc, left) {
        Ok(all) => chosen(alloc, &all, right, false),
        Err(fault) => Err(fault),
    }
}

#[cycle(listing)]
fn tuples_of(alloc: Global, parts: &Parts) -> Result<Value, OpFault>
    requires sound { PartsAreSound parts.now }
    requires finite { parts_are_finite parts.now ≡ true }
    ensures { Listing (Product parts.now) result }
{
    match list_parts(alloc, parts) {
        Ok(sets) => all_tuples(alloc, &sets),
        Err(fault) => Err(fault),
    }
}

#[cycle(listing)]
fn records_of(alloc: Global, fields: &Fields) -> Result<Value, OpFault>
    requires sound { IsSound (Records fields.now) }
    requires finite { fields_are_finite fields.now ≡ true }
    ensures { Listing (Records fields.now) result }
{
    match list_fields(alloc, fields) {
        Ok(sets) => all_records(alloc, fields, &sets),
        Err(fault) => Err(fault),
    }
}

/// Each part as a value, from left to right.
#[cycle(listing)]
fn list_parts(alloc: Global, parts: &Parts) -> Result<Vec<Value>, OpFault>
    requires sound { PartsAreSound parts.now }
    requires finite { parts_are_finite parts.now ≡ true }
    ensures { MatchResult result (λ sets. AreListings parts.now sets.items) (MayBeRefused parts.now) }
{
    let mut sets = Vec::new(alloc);
    let items = parts.items();
    for part in items {
        match listing(alloc, part) {
            Ok(set) => push_value(&mut sets, set)?,
            Err(fault) => return Err(fault),
        }
    }
    Ok(sets)
}

/// The set of each field as a value, from left to right.
#[cycle(listing)]
fn list_fields(alloc: Global, fields: &Fields) -> Result<Vec<Value>, OpFault>
    requires sound { FieldsAreSound fields.now }
    requires finite { fields_are_finite fields.now ≡ true }
    ensures { MatchResult result (λ sets. AreListings (sets_of fields.now) sets.items) (MayBeRefused (sets_of fields.now)) }
{
    let mut sets = Vec::new(alloc);
    let items = fields.items();
    for field in items {
        match listing(alloc, &field.part) {
            Ok(set) => push_value(&mut sets, set)?,
            Err(fault) => return Err(fault),
        }
    }
    Ok(sets)
}

fn push_value(values: &mut Vec<Value>, value: Value) -> Result<(), AllocError>
    ensures { OnOk result (values.new.items ≡ values.old.items ++ value ∷ []) }
{
    values.push(value)?;
    Ok(())
}

/// The tuples of one member of each set. No value is a tuple of more values than a function may have.
fn all_tuples(alloc: Global, sets: &[Value]) -> Result<Value, OpFault>
    requires { (s : Val) → Contains sets.now s → IsSet s }
    ensures { GivesSet (InProduct sets.now) result }
{
    if sets.len() > MAX_MEMBERS {
        return set_from(Vec::new(alloc));
    }
    tuples(alloc, sets)
}

/// The records with a member of the set beside each field.
fn all_records(alloc: Global, fields: &Fields, sets: &[Value]) -> Result<Value, OpFault>
    requires sound { IsSound (Records fields.now) }
    requires as_many { length sets.now ≡ length (names_of fields.now) }
    requires sets { (s : Val) → Contains sets.now s → IsSet s }
    ensures { GivesSet (InRecordSet (texts_of fields.now) sets.now) result }
{
    if sets.len() > MAX_MEMBERS {
        return set_from(Vec::new(alloc));
    }
    let names = texts(alloc, fields)?;
    records(alloc, &names, sets)
}

/// The names of the fields as texts.
fn texts(alloc: Global, fields: &Fields) -> Result<Vec<Text>, AllocError>
    requires { FieldsAreSound fields.now }
    ensures { IfOk result (λ names. names.items ≡ texts_of fields.now) }
{
    let mut names = Vec::new(alloc);
    let items = fields.items();
    for field in items {
        push_name(&mut names, &field.name)?;
    }
    Ok(names)
}

/// Adds the text of a string.
fn push_name(names: &mut Vec<Text>, name: &Value) -> Result<(), AllocError>
    requires { IsString name.now }
    ensures { OnOk result (names.new.items ≡ names.old.items ++ text_in name.now ∷ []) }
{
    match name.as_text() {
        Some(text) => {
            let copy = text.copy()?;
            names.push(copy)?;
            Ok(())
        }
        None => Ok(()),
    }
}

/// The members of the set that are in the described set, or those that are not.
fn chosen(alloc: Global, all: &Value, right: &Described, inside: bool) -> Result<Value, OpFault>
    requires { IsSound right.now }
    ensures { GivesSet (IsChosen all.now right.now inside) result }
{
    let kept = choose(alloc, all, right, inside)?;
    set_from(kept)
}

fn choose(
    alloc: Global,
    all: &Value,
    right: &Described,
    inside: bool,
) -> Result<Vec<Value>, AllocError>
    requires { IsSound right.now }
    ensures { IfOk result (λ kept. (v : Val) → Contains kept.items v ↔ IsChosen all.now right.now inside v) }
{
    let mut kept = Vec::new(alloc);
    let items = all.members();
    for item in items {
        let keep = is_chosen(right, item, inside);
        push_if(&mut kept, item, keep)?;
    }
    Ok(kept)
}

/// Whether the value is in the set, or that it is not.
fn is_chosen(right: &Described, item: &Value, inside: bool) -> bool
    requires { IsSound right.now }
    ensures { IsTrue result ↔ MatchBool inside (Belongs right.now item.now) (¬ Belongs right.now item.now) }
{
    if inside {
        return member(right, item);
    }
    !member(right, item)
}

fn push_if(kept: &mut Vec<Value>, item: &Value, keep: bool) -> Result<(), AllocError>
    ensures { OnOk result (kept.new.items ≡ kept.old.items ++ (if keep then item.now ∷ [] else [])) }
{
    if keep {
        let copy = item.copy()?;
        kept.push(copy)?;
    }
    Ok(())
}

/// `BOOLEAN`.
fn truth_values(alloc: Global) -> Result<Value, OpFault>
    ensures { Collects Booleans result }
{
    let both = false_and_true(alloc)?;
    set_from(both)
}

fn false_and_true(alloc: Global) -> Result<Vec<Value>, AllocError>
    ensures { IfOk result (λ both. both.items ≡ truth false ∷ truth true ∷ []) }
{
    let mut both = Vec::new(alloc);
    push_value(&mut both, Value::boolean(false))?;
    push_value(&mut both, Value::boolean(true))?;
    Ok(both)
}

/// The integers from the first to the last.
fn integers(alloc: Global, first: i64, last: i64) -> Result<Value, OpFault>
    ensures { Collects (Interval first last) result }
{
    interval(alloc, &Value::int(first), &Value::int(last))
}

/// A copy of the set.
fn same_set(all: &Value) -> Result<Value, OpFault>
    requires { IsSet all.now }
    ensures { Collects (Listed all.now) result }
{
    all.is_value();
    Ok(all.copy()?)
}

/// The set of these values.
fn set_from(members: Vec<Value>) -> Result<Value, OpFault>
    ensures { GivesSet (Contains members.items) result }
{
    match Value::make_set(members) {
        Ok(set) => Ok(set),
        Err(fault) => Err(OpFault::from(fault)),
    }
}
