ghost use Rattle.std.specs.Prelude.{◌≡◌, ℕ, ◌+◌, ◌<◌, ◌^◌, IfOk, MatchOption, length, pos, slice_get};
ghost use Rattle.std.specs.List.Sorted.{IsBinarySearchResult, IsSearchInRange, IsStrictlySortedBy};
ghost use Rattle.std.specs.Option.{option_map};
ghost use Rattle.values_core.specs.Data.{function, integer, string};
ghost use Rattle.values_core.specs.Functions.{Applies, keys_in, pairs_in, sequence_of, values_in};
ghost use Rattle.values_core.specs.IsValue.{keys};
ghost use Rattle.values_core.specs.Order.{val_cmp};
ghost use Rattle.values_core.specs.View.{entries_view, fields_view};

use super::{Entry, Field, Node, Value};
use base_core::Text;
use std::alloc::{AllocError, Global};

/// The key of a sequence at `i`, which counts from 0.
pub(super) fn place(i: usize) -> i64
    requires { i + 1 < 2 ^ 63 }
    ensures { result ≡ pos (i + 1) }
{
    i as i64 + 1
}

/// Where the key stands among the keys 1 to `count`, from 0.
fn place_of(key: &Value, count: usize) -> Option<usize>
    ensures { MatchOption result ((i : ℕ) → i < count → key.now ≡ integer (pos (i + 1)) → ⊥) (λ i. (i < count) × (key.now ≡ integer (pos (i + 1)))) }
{
    let n = match key.as_int() {
        Some(n) => n,
        None => return None,
    };
    if n < 1 {
        return None;
    }
    let at = (n - 1) as usize;
    if at < count { Some(at) } else { None }
}

/// The item at `i`, from 0.
pub(super) fn item_at(items: &Vec<Value>, i: usize) -> Option<&Value>
    ensures { option_map (λ v. v.now) result ≡ slice_get (values_in (sequence_of items.now.items)) i }
{
    if i < items.len() {
        Some(&items[i])
    } else {
        None
    }
}

/// The value of the field at `i`, from 0.
pub(super) fn field_at(fields: &Vec<Field>, i: usize) -> Option<&Value>
    ensures { option_map (λ v. v.now) result ≡ slice_get (values_in (function (fields_view fields.now.items))) i }
{
    if i < fields.len() {
        let field = &fields[i];
        Some(&field.value)
    } else {
        None
    }
}

/// The value of the pair at `i`, from 0.
pub(super) fn entry_at(entries: &Vec<Entry>, i: usize) -> Option<&Value>
    ensures { option_map (λ v. v.now) result ≡ slice_get (values_in (function (entries_view entries.now.items))) i }
{
    if i < entries.len() {
        let entry = &entries[i];
        Some(&entry.value)
    } else {
        None
    }
}

/// The key of a sequence at `i`, from 0.
pub(super) fn place_at(items: &Vec<Value>, i: usize) -> Option<Value>
    ensures { result ≡ slice_get (keys_in (sequence_of items.now.items)) i }
{
    if i < items.len() {
        Some(Value::int(place(i)))
    } else {
        None
    }
}

/// The name of the field at `i`, from 0, as a value.
pub(super) fn name_at(fields: &Vec<Field>, i: usize) -> Result<Option<Value>, AllocError>
    ensures { IfOk result (λ key. key ≡ slice_get (keys_in (function (fields_view fields.now.items))) i) }
{
    if i < fields.len() {
        let field = &fields[i];
        let name = field.name.copy()?;
        Ok(Some(Value::string(name)))
    } else {
        Ok(None)
    }
}

/// A copy of the key of the pair at `i`, from 0.
pub(super) fn key_of_entry(entries: &Vec<Entry>, i: usize) -> Result<Option<Value>, AllocError>
    ensures { IfOk result (λ key. key ≡ slice_get (keys_in (function (entries_view entries.now.items))) i) }
{
    if i < entries.len() {
        let entry = &entries[i];
        let key = entry.key.copy()?;
        Ok(Some(key))
    } else {
        Ok(None)
    }
}

/// The pairs of a sequence: each item behind its number.
pub(super) fn number_items(
    alloc: Global,
    items: &Vec<Value>,
) -> Result<Vec<(Value, Value)>, AllocError>
    ensures { IfOk result (λ pairs. pairs.items ≡ pairs_in (sequence_of items.now.items)) }
{
    let mut pairs = Vec::with_capacity(alloc, items.len())?;
    for i in 0..items.len() {
        let value = items[i].copy()?;
        pairs.push((Value::int(place(i)), value))?;
    }
    Ok(pairs)
}

/// The pairs of a record.
pub(super) fn copy_fields(
    alloc: Global,
    fields: &Vec<Field>,
) -> Result<Vec<(Value, Value)>, AllocError>
    ensures { IfOk result (λ pairs. pairs.items ≡ pairs_in (function (fields_view fields.now.items))) }
{
    let mut pairs = Vec::with_capacity(alloc, fields.len())?;
    for field in fields {
        let name = field.name.copy()?;
        let value = field.value.copy()?;
        pairs.push((Value::string(name), value))?;
    }
    Ok(pairs)
}

/// A copy of the pairs.
pub(super) fn copy_pairs(
    alloc: Global,
    entries: &Vec<Entry>,
) -> Result<Vec<(Value, Value)>, AllocError>
    ensures { IfOk result (λ pairs. pairs.items ≡ pairs_in (function (entries_view entries.now.items))) }
{
    let mut pairs = Vec::with_capacity(alloc, entries.len())?;
    for entry in entries {
        let key = entry.key.copy()?;
        let value = entry.value.copy()?;
        pairs.push((key, value))?;
    }
    Ok(pairs)
}

/// What a sequence has at the key.
pub(super) fn apply_items<'a>(items: &'a Vec<Value>, key: &Value) -> Option<&'a Value>
    ensures { Applies (sequence_of items.now.items) key.now (option_map (λ v. v.now) result) }
{
    match place_of(key, items.len()) {
        Some(at) => Some(&items[at]),
        None => None,
    }
}

/// What a record has at the key.
pub(super) fn apply_fields<'a>(fields: &'a Vec<Field>, key: &Value) -> Option<&'a Value>
    requires { IsStrictlySortedBy val_cmp (keys (fields_view fields.now.items)) }
    ensures { Applies (function (fields_view fields.now.items)) key.now (option_map (λ v. v.now) result) }
{
    match &key.node {
        Node::String(name) => match find_field(fields, name) {
            Ok(at) => {
                let field = &fields[at];
                Some(&field.value)
            }
            Err(_) => None,
        },
        _ => None,
    }
}

/// What a function has at the key.
pub(super) fn apply_entries<'a>(entries: &'a Vec<Entry>, key: &Value) -> Option<&'a Value>
    requires { IsStrictlySortedBy val_cmp (keys (entries_view entries.now.items)) }
    ensures { Applies (function (entries_view entries.now.items)) key.now (option_map (λ v. v.now) result) }
{
    match find(entries, key) {
        Ok(at) => {
            let entry = &entries[at];
            Some(&entry.value)
        }
        Err(_) => None,
    }
}

/// Where the field of this name stands among fields in ascending order.
fn find_field(fields: &Vec<Field>, name: &Text) -> Result<usize, usize>
    ensures range { IsSearchInRange result (length fields.now.items) }
    ensures place { IsBinarySearchResult (λ f. val_cmp (string f.name) (string name.now)) fields.now.items result }
{
    fields.binary_search_by(|field| field.name.cmp(name))
}

/// Where the pair of this key stands among pairs in ascending order.
fn find(entries: &Vec<Entry>, key: &Value) -> Result<usize, usize>
    ensures range { IsSearchInRange result (length entries.now.items) }
    ensures place { IsBinarySearchResult (λ e. val_cmp e.key key.now) entries.now.items result }
{
    entries.binary_search_by(|entry| entry.key.cmp(key))
}
