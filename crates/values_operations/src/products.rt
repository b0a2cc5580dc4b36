ghost use Rattle.std.specs.Prelude.{◌≡◌, ◌++◌, ◌<◌, ◌≤◌, ◌^◌, [], ◌∷◌, Contains, IfOk, MatchBool, MatchOption, MatchResult, OnOk, get_or, length, map};
ghost use Rattle.std.specs.List.{zip};
ghost use Rattle.values_core.specs.Data.{Val, string};
ghost use Rattle.values_core.specs.FunctionOperations.{GivesValue};
ghost use Rattle.values_core.specs.Functions.{IsFunctionOf};
ghost use Rattle.values_core.specs.Products.{
  FunctionsAreValues,
  InProduct,
  InRecordSet,
  ListsFunctions,
  ListsRecords,
  ListsTuples,
  RecordsAreValues,
  SubsetsAreValues,
  TuplesAreValues,
};
ghost use Rattle.values_core.specs.SetOperations.{AreDifferent, GivesSet, ListsSubsets};
ghost use Rattle.values_core.specs.Sets.{IsSetOf, items_of};
ghost use Rattle.values_core.specs.declared.fault.OpFault.TheVariants.{NoMemory};
ghost use Rattle.values_operations.specs.Choices.{
  AreDeep,
  AreKeysAndParts,
  AreNumbered,
  ArePairs,
  HasDeep,
  IsChoice,
  IsChoiceOf,
  choice,
};
ghost use Rattle.values_operations.specs.Counts.{
  FunctionsAreCounted,
  RecordsAreCounted,
  SubsetsAreCounted,
  SubsetsAreFew,
  TuplesAreCounted,
  ways,
};
ghost use Rattle.values_core.specs.IsValue.{IsValue};
ghost use Rattle.values_operations.specs.NoSet.{no_set_from};
ghost use Rattle.values_operations.specs.PartList.{part_list};
ghost use Rattle.values_operations.specs.Subsets.{AreMembers, IsSubsetOf, subset};

use crate::THE_TERM;
use crate::functions::push_pair;
use crate::listings::integers;
use crate::sets::{expect_set, push_if, set_from};
use base_core::Text;
use base_core::limits::{MAX_MEMBERS, MAX_VALUE_DEPTH};
use std::alloc::{AllocError, Global};
use values_core::{EvalKind, OpFault, Value};

/// The sets of which functions have their values: the same set for so many keys, or one for each key.
#[derive(Clone, Copy, Drop)]
enum Parts<'a> {
    Same(&'a Value, usize),
    Each(&'a [Value]),
}

/// `SUBSET a`.
pub fn powerset(alloc: Global, a: &Value) -> Result<Value, OpFault>
    ensures { ListsSubsets a.now result }
{
    a.is_value();
    expect_set(a, 0)?;
    let members = a.members();
    // A set has room for 2 ^ 16 subsets, and not for 2 ^ 17.
    if members.len() > 16 {
        return Err(OpFault::Refused(EvalKind::TooLarge, THE_TERM));
    }
    // It is a subset of itself, and the deepest.
    if a.levels() >= MAX_VALUE_DEPTH {
        return Err(OpFault::Refused(EvalKind::TooDeep, THE_TERM));
    }
    let subsets = all_subsets(alloc, members, 1 << members.len())?;
    set_from(subsets)
}

/// The sets of some of the members, of which there are `count`.
fn all_subsets(alloc: Global, members: &[Value], count: usize) -> Result<Vec<Value>, OpFault>
    requires fit { AreMembers members.now }
    requires all { count ≡ 2 ^ length members.now }
    ensures { MatchResult result (λ sets. AreNumbered (IsSubsetOf members.now) count sets.items) (λ e. e ≡ NoMemory) }
{
    let mut subsets = Vec::new(alloc);
    for number in 0..count {
        let some = some_of(alloc, members, number)?;
        let subset = subset_from(some)?;
        push_value(&mut subsets, subset)?;
    }
    Ok(subsets)
}

/// A copy of the members whose binary digits in the number are 1.
fn some_of(alloc: Global, members: &[Value], number: usize) -> Result<Vec<Value>, AllocError>
    ensures { IfOk result (λ some. some.items ≡ subset members.now number) }
{
    let mut some = Vec::new(alloc);
    let mut rest = number;
    for i in 0..members.len() {
        push_if(&mut some, &members[i], rest % 2 == 1)?;
        rest /= 2;
    }
    Ok(some)
}

/// The set of values that are in ascending order already.
fn subset_from(members: Vec<Value>) -> Result<Value, OpFault>
    requires { AreMembers members.items }
    ensures { GivesValue (IsSetOf members.items) result }
{
    match Value::make_set(members) {
        Ok(subset) => Ok(subset),
        Err(fault) => Err(OpFault::from(fault)),
    }
}

/// `[a -> b]`.
pub fn function_set(alloc: Global, a: &Value, b: &Value) -> Result<Value, OpFault>
    ensures { ListsFunctions a.now b.now result }
{
    a.is_value();
    b.is_value();
    expect_set(a, 0)?;
    expect_set(b, 1)?;
    let keys = a.members();
    functions_on(alloc, keys, Parts::Same(b, keys.len()))
}

/// The tuples of one member of each part, in the order of the parts.
pub fn product(alloc: Global, parts: &[Value]) -> Result<Value, OpFault>
    requires { length parts.now ≤ 255 }
    ensures { ListsTuples parts.now result }
{
    match expect_sets(parts) {
        Ok(()) => tuples(alloc, parts),
        Err(fault) => Err(fault),
    }
}

/// The same where all the parts are known to be sets, of which there may be as many as a tuple may have values.
pub fn tuples(alloc: Global, parts: &[Value]) -> Result<Value, OpFault>
    requires few { length parts.now ≤ 100000 }
    requires sets { no_set_from 0 parts.now ≡ None }
    ensures { GivesSet (InProduct parts.now) result }
{
    are_values(parts);
    let keys = integers(alloc, 1, parts.len() as u32)?;
    functions_on(alloc, keys.as_slice(), Parts::Each(parts))
}

/// The records that have in the field of each name a member of the part beside it.
pub fn record_set(alloc: Global, names: &[Text], parts: &[Value]) -> Result<Value, OpFault>
    requires few { length parts.now ≤ 255 }
    requires as_many { length names.now ≡ length parts.now }
    requires different { AreDifferent names.now }
    ensures { ListsRecords names.now parts.now result }
{
    match expect_sets(parts) {
        Ok(()) => records(alloc, names, parts),
        Err(fault) => Err(fault),
    }
}

/// The same where all the parts are known to be sets, of which there may be as many as a record may have fields.
pub fn records(alloc: Global, names: &[Text], parts: &[Value]) -> Result<Value, OpFault>
    requires few { length parts.now ≤ 100000 }
    requires as_many { length names.now ≡ length parts.now }
    requires different { AreDifferent names.now }
    requires sets { no_set_from 0 parts.now ≡ None }
    ensures { GivesSet (InRecordSet names.now parts.now) result }
{
    are_values(parts);
    let keys = strings(alloc, names)?;
    are_values(keys.as_slice());
    functions_on(alloc, keys.as_slice(), Parts::Each(parts))
}

/// That none of the sets, functions, tuples and records that these calls list is too deep to be a value.
pub fn depth_law()
    ensures subsets { SubsetsAreValues }
    ensures functions { FunctionsAreValues }
    ensures tuples { TuplesAreValues }
    ensures records { RecordsAreValues }
{}

/// How many sets, functions, tuples and records these calls list at most.
pub fn count_law()
    ensures subsets { SubsetsAreCounted }
    ensures few_subsets { SubsetsAreFew }
    ensures functions { FunctionsAreCounted }
    ensures tuples { TuplesAreCounted }
    ensures records { RecordsAreCounted }
{}

/// The names as strings.
fn strings(alloc: Global, names: &[Text]) -> Result<Vec<Value>, AllocError>
    ensures { IfOk result (λ keys. keys.items ≡ map string names.now) }
{
    let mut keys = Vec::new(alloc);
    for name in names {
        keys.push(Value::string(name.copy()?))?;
    }
    Ok(keys)
}

/// That all operands are sets.
fn expect_sets(parts: &[Value]) -> Result<(), OpFault>
    requires { length parts.now ≤ 255 }
    ensures { MatchResult result (λ _. no_set_from 0 parts.now ≡ None) (λ e. no_set_from 0 parts.now ≡ Some e) }
{
    for i in 0..parts.len() {
        expect_set(&parts[i], i as u8)?;
    }
    Ok(())
}

/// That what is held are values.
fn are_values(values: &[Value])
    ensures { (v : Val) → Contains values.now v → IsValue v }
{
    for v in values {
        v.is_value();
    }
}

/// The set of the functions that have at each key a member of the part beside it.
fn functions_on(alloc: Global, keys: &[Value], parts: Parts) -> Result<Value, OpFault>
    requires { AreKeysAndParts keys.now (part_list parts) }
    ensures { GivesSet (IsChoice keys.now (part_list parts.entry)) result }
{
    let Some(count) = count_ways(keys, parts) else {
        return Err(OpFault::Refused(EvalKind::TooLarge, THE_TERM));
    };
    if count > 0 && are_deep(keys, parts) {
        return Err(OpFault::Refused(EvalKind::TooDeep, THE_TERM));
    }
    let functions = all_functions(alloc, keys, parts, count)?;
    set_from(functions)
}

/// In how many ways there is one member of each part, unless they are more than a set may have.
fn count_ways(keys: &[Value], parts: Parts) -> Option<usize>
    requires { AreKeysAndParts keys.now (part_list parts) }
    ensures { MatchOption result (100000 < ways (part_list parts.entry)) (λ n. (n ≡ ways (part_list parts.entry)) × (n ≤ 100000)) }
{
    let mut count: usize = 1;
    for i in 0..keys.len() {
        let size = members_of(parts, i).len();
        count = limited(count * size);
    }
    if count > MAX_MEMBERS {
        return None;
    }
    Some(count)
}

/// The number, or if it is above what a set may have, the least that is.
fn limited(n: usize) -> usize
    ensures few { n ≤ 100000 → result ≡ n }
    ensures many { 100000 < n → result ≡ 100001 }
{
    n.min(MAX_MEMBERS + 1)
}

/// Whether a function with one of the keys, or with a member of one of the parts, is too deep for a set.
fn are_deep(keys: &[Value], parts: Parts) -> bool
    ensures { MatchBool result (AreDeep keys.now (part_list parts.entry)) (¬ AreDeep keys.now (part_list parts.entry)) }
{
    if has_deep(keys, MAX_VALUE_DEPTH - 1) {
        return true;
    }
    has_deep_part(parts)
}

fn has_deep_part(parts: Parts) -> bool
    ensures { MatchBool result (HasDeep 32 (part_list parts.entry)) (¬ HasDeep 32 (part_list parts.entry)) }
{
    match parts {
        Parts::Same(part, count) => count > 0 && part.levels() >= MAX_VALUE_DEPTH,
        Parts::Each(parts) => has_deep(parts, MAX_VALUE_DEPTH),
    }
}

/// Whether one of the values is so deep.
fn has_deep(values: &[Value], levels: u8) -> bool
    ensures { MatchBool result (HasDeep levels values.now) (¬ HasDeep levels values.now) }
{
    for v in values {
        if v.levels() >= levels {
            return true;
        }
    }
    false
}

/// The members of the part at `i`.
fn members_of<'a>(parts: Parts<'a>, i: usize) -> &'a [Value]
    requires { i < length (part_list parts) }
    ensures beside { (d : Val) → result.now ≡ items_of (get_or (part_list parts.entry) i d) }
    ensures few { length result.now ≤ 100000 }
{
    match parts {
        Parts::Same(part, _) => members_in(part),
        Parts::Each(parts) => members_in(&parts[i]),
    }
}

fn members_in(part: &Value) -> &[Value]
    ensures all { result.now ≡ items_of part.now }
    ensures few { length result.now ≤ 100000 }
{
    part.is_value();
    part.members()
}

/// The functions of all the ways, of which there are `count`.
fn all_functions(
    alloc: Global,
    keys: &[Value],
    parts: Parts,
    count: usize,
) -> Result<Vec<Value>, OpFault>
    requires fit { AreKeysAndParts keys.now (part_list parts) }
    requires all { count ≡ ways (part_list parts) }
    ensures { MatchResult result (λ fs. AreNumbered (IsChoiceOf keys.now (part_list parts.entry)) count fs.items) (λ e. e ≡ NoMemory) }
{
    let mut functions = Vec::new(alloc);
    for number in 0..count {
        let pairs = chosen(alloc, keys, parts, number)?;
        let function = function_of(alloc, pairs)?;
        push_value(&mut functions, function)?;
    }
    Ok(functions)
}

/// The keys with the members of the parts in the way of this number.
fn chosen(
    alloc: Global,
    keys: &[Value],
    parts: Parts,
    number: usize,
) -> Result<Vec<(Value, Value)>, AllocError>
    requires as_many { length (part_list parts) ≡ length keys.now }
    requires below { number < ways (part_list parts) }
    ensures { IfOk result (λ pairs. pairs.items ≡ zip keys.now (choice (part_list parts.entry) number)) }
{
    let mut pairs = Vec::new(alloc);
    let mut rest = number;
    for i in 0..keys.len() {
        let members = members_of(parts, i);
        let size = members.len();
        push_pair(&mut pairs, &keys[i], &members[rest % size])?;
        rest /= size;
    }
    Ok(pairs)
}

/// The function with these pairs.
fn function_of(alloc: Global, pairs: Vec<(Value, Value)>) -> Result<Value, OpFault>
    requires { ArePairs pairs.items }
    ensures { GivesValue (IsFunctionOf pairs.items) result }
{
    match Value::make_function(alloc, pairs) {
        Ok(function) => Ok(function),
        Err(fault) => Err(OpFault::from(fault)),
    }
}

fn push_value(values: &mut Vec<Value>, value: Value) -> Result<(), AllocError>
    ensures { OnOk result (values.new.items ≡ values.old.items ++ value ∷ []) }
{
    values.push(value)?;
    Ok(())
}
