ghost use Rattle.std.specs.Prelude.{◌≡◌, ◌+◌, ◌≤◌, ◌↔◌, IfErr, IfOk, IsTrue, MatchBool, map, pos};
ghost use Rattle.std.specs.List.Sorted.{IsPermutation, IsSorted, IsStrictlySortedBy};
ghost use Rattle.values_core.specs.Data.{depth, function, integer, string, pairs_depth, pairs_of, set, vals_depth, vals_of};
ghost use Rattle.values_core.specs.Functions.{
  HasKeyTwice,
  IsSequence,
  MakesFunction,
  MakesSequence,
  fields_as_pairs,
  sequence_of,
};
ghost use Rattle.values_core.specs.HashOf.{hash_of};
ghost use Rattle.values_core.specs.IsValue.{AreCanonical, HaveCanonical, IsCanonical};
ghost use Rattle.values_core.specs.Order.{val_cmp};
ghost use Rattle.values_core.specs.Sets.{IsAscendingOf, MakesSet};
ghost use Rattle.values_core.specs.declared.value.ValueFault.TheVariants.{KeyTwice};
ghost use Rattle.values_core.specs.View.{AreNamed, HasOneForm, IsName, entries_view, fields_view, kept_hash, kept_levels, node_view, pair_cmp};

use super::hash::{hash_of_fields, hash_of_items, hash_of_members, hash_of_pairs};
use super::{
    Entry, Field, FunctionBody, Node, RecordBody, SequenceBody, SetBody, Value, ValueFault, kept,
};
use base_core::Text;
use base_core::limits::{MAX_MEMBERS, MAX_VALUE_DEPTH};
use std::alloc::{AllocError, Global};
use std::rc::Rc;

impl Value {
    /// The set of these values, of which repeats are dropped.
    pub fn make_set(members: Vec<Value>) -> Result<Value, ValueFault>
        ensures { MakesSet members.items result }
    {
        let alloc = *members.allocator();
        let members = distinct(members);
        if members.len() > MAX_MEMBERS {
            return Err(ValueFault::TooLarge);
        }
        let deepest = deepest(&members);
        if deepest >= MAX_VALUE_DEPTH {
            return Err(ValueFault::TooDeep);
        }
        let body = set_body(alloc, members, deepest + 1)?;
        Ok(Value {
            node: Node::Set(body),
        })
    }

    /// The function with these pairs of key and value, no key of which may come twice.
    pub fn make_function(alloc: Global, pairs: Vec<(Value, Value)>) -> Result<Value, ValueFault>
        ensures { MakesFunction pairs.items result }
    {
        let pairs = match by_key(pairs) {
            Ok(pairs) => pairs,
            Err(fault) => return Err(fault),
        };
        if pairs.len() > MAX_MEMBERS {
            return Err(ValueFault::TooLarge);
        }
        let deepest = deepest_pair(&pairs);
        if deepest >= MAX_VALUE_DEPTH {
            return Err(ValueFault::TooDeep);
        }
        let node = function_node(alloc, pairs, deepest + 1)?;
        Ok(Value { node })
    }

    /// The sequence of these values: the function on 1 to their number.
    pub fn sequence(alloc: Global, items: Vec<Value>) -> Result<Value, ValueFault>
        ensures { MakesSequence items.items result }
    {
        if items.len() > MAX_MEMBERS {
            return Err(ValueFault::TooLarge);
        }
        let deepest = deepest(&items);
        if deepest >= MAX_VALUE_DEPTH {
            return Err(ValueFault::TooDeep);
        }
        let body = sequence_body(alloc, items, deepest + 1)?;
        Ok(Value {
            node: Node::Sequence(body),
        })
    }

    /// The record with these fields: the function on their names as strings.
    pub fn record(alloc: Global, fields: Vec<(Text, Value)>) -> Result<Value, ValueFault>
        ensures { MakesFunction (fields_as_pairs fields.items) result }
    {
        let pairs = pairs_from(alloc, fields)?;
        Value::make_function(alloc, pairs)
    }
}

/// The depth of a value, which stands beside it.
fn depth_of(value: &Value) -> u8
    ensures depth { result ≡ depth value.now }
    ensures canonical { IsCanonical value.now }
    ensures shallow { result ≤ 32 }
{
    kept(&value.node)
}

/// The greatest depth of the values.
fn deepest(items: &Vec<Value>) -> u8
    ensures depth { result ≡ vals_depth (vals_of items.now.items) }
    ensures canonical { AreCanonical (vals_of items.now.items) }
{
    let mut most: u8 = 0;
    for item in items {
        most = most.max(depth_of(item));
    }
    most
}

/// The greatest depth of the keys and the values.
fn deepest_pair(pairs: &Vec<(Value, Value)>) -> u8
    ensures depth { result ≡ pairs_depth (pairs_of pairs.now.items) }
    ensures canonical { HaveCanonical (pairs_of pairs.now.items) }
{
    let mut most: u8 = 0;
    for pair in pairs {
        most = most.max(depth_of(&pair.0).max(depth_of(&pair.1)));
    }
    most
}

/// The values in ascending order, each once. Most come so already.
fn distinct(members: Vec<Value>) -> Vec<Value>
    ensures { IsAscendingOf members.items result.items }
{
    if are_ascending(&members) {
        return members;
    }
    let mut members = members;
    members.sort_unstable();
    members.dedup();
    members
}

/// Whether each value stands before the next.
fn are_ascending(items: &Vec<Value>) -> bool
    ensures { IsTrue result → IsStrictlySortedBy val_cmp items.now.items }
{
    for i in 1..items.len() {
        let before = &items[i - 1];
        let here = &items[i];
        if before.cmp(here).is_ge() {
            return false;
        }
    }
    true
}

/// The pairs in ascending order of their keys, of which none may come twice. Most come so already.
fn by_key(pairs: Vec<(Value, Value)>) -> Result<Vec<(Value, Value)>, ValueFault>
    ensures same { IfOk result (λ sorted. IsPermutation pairs.items sorted.items) }
    ensures ascending { IfOk result (λ sorted. IsStrictlySortedBy val_cmp (map (λ p. p.0) sorted.items)) }
    ensures twice { IfErr result (λ fault. (fault ≡ KeyTwice) × HasKeyTwice pairs.items) }
{
    if keys_ascend(&pairs) {
        return Ok(pairs);
    }
    let mut pairs = pairs;
    pairs.sort_unstable();
    if has_key_twice(&pairs) {
        return Err(ValueFault::KeyTwice);
    }
    Ok(pairs)
}

/// Whether each key stands before the next.
fn keys_ascend(pairs: &Vec<(Value, Value)>) -> bool
    ensures { IsTrue result → IsStrictlySortedBy val_cmp (map (λ p. p.0) pairs.now.items) }
{
    for i in 1..pairs.len() {
        let before = &pairs[i - 1];
        let here = &pairs[i];
        if before.0.cmp(&here.0).is_ge() {
            return false;
        }
    }
    true
}

/// Whether two pairs that stand side by side have one key.
fn has_key_twice(pairs: &Vec<(Value, Value)>) -> bool
    requires { IsSorted pair_cmp pairs.now.items }
    ensures { MatchBool result (HasKeyTwice pairs.now.items) (IsStrictlySortedBy val_cmp (map (λ p. p.0) pairs.now.items)) }
{
    for i in 1..pairs.len() {
        let before = &pairs[i - 1];
        let here = &pairs[i];
        if before.0 == here.0 {
            return true;
        }
    }
    false
}

/// The function with these pairs in the form that it has.
fn function_node(alloc: Global, pairs: Vec<(Value, Value)>, levels: u8) -> Result<Node, AllocError>
    ensures view { IfOk result (λ n. node_view n ≡ function (pairs_of pairs.items)) }
    ensures levels { IfOk result (λ n. kept_levels n ≡ levels) }
    ensures hash { IfOk result (λ n. kept_hash n ≡ hash_of (node_view n)) }
    ensures form { IfOk result (λ n. HasOneForm n) }
{
    if are_numbered(&pairs) {
        let items = values_from(alloc, pairs)?;
        let body = sequence_body(alloc, items, levels)?;
        return Ok(Node::Sequence(body));
    }
    if are_named(&pairs) {
        let fields = fields_from(alloc, pairs)?;
        let body = record_body(alloc, fields, levels)?;
        return Ok(Node::Record(body));
    }
    let entries = entries_from(alloc, pairs)?;
    let body = function_body(alloc, entries, levels)?;
    Ok(Node::Function(body))
}

/// Whether the keys are 1 to the number of the pairs.
fn are_numbered(pairs: &Vec<(Value, Value)>) -> bool
    ensures { IsTrue result ↔ IsSequence (function (pairs_of pairs.now.items)) }
{
    for i in 0..pairs.len() {
        let pair = &pairs[i];
        if !is_place(&pair.0, i) {
            return false;
        }
    }
    true
}

/// Whether the key is the number of the place at `i`, which counts from 0.
fn is_place(key: &Value, i: usize) -> bool
    ensures { IsTrue result ↔ (key.now ≡ integer (pos (i + 1))) }
{
    match key.as_int() {
        Some(n) => n > 0 && (n - 1) as usize == i,
        None => false,
    }
}

/// Whether each key is a string.
fn are_named(pairs: &Vec<(Value, Value)>) -> bool
    ensures { IsTrue result ↔ AreNamed (pairs_of pairs.now.items) }
{
    for pair in pairs {
        if !is_name(&pair.0) {
            return false;
        }
    }
    true
}

fn is_name(key: &Value) -> bool
    ensures { IsTrue result ↔ IsName key.now }
{
    match &key.node {
        Node::String(_) => true,
        _ => false,
    }
}

/// The values of the pairs in their order.
fn values_from(alloc: Global, pairs: Vec<(Value, Value)>) -> Result<Vec<Value>, AllocError>
    ensures { IfOk result (λ vs. vs.items ≡ map (λ p. p.1) pairs.items) }
{
    let mut values = Vec::with_capacity(alloc, pairs.len())?;
    for (_key, value) in pairs {
        values.push(value)?;
    }
    Ok(values)
}

/// The fields of pairs whose keys are strings.
fn fields_from(alloc: Global, pairs: Vec<(Value, Value)>) -> Result<Vec<Field>, AllocError>
    requires { AreNamed (pairs_of pairs.items) }
    ensures { IfOk result (λ fs. fields_view fs.items ≡ pairs_of pairs.items) }
{
    let mut fields = Vec::with_capacity(alloc, pairs.len())?;
    for (key, value) in pairs {
        let name = key.into_name();
        fields.push(Field { name, value })?;
    }
    Ok(fields)
}

impl Value {
    /// The text of a string.
    fn into_name(self) -> Text
        requires { IsName self }
        ensures { string result ≡ self }
    {
        let Value { node } = self;
        match node {
            Node::String(name) => name,
            _ => unreachable!(),
        }
    }
}

fn entries_from(alloc: Global, pairs: Vec<(Value, Value)>) -> Result<Vec<Entry>, AllocError>
    ensures { IfOk result (λ es. entries_view es.items ≡ pairs_of pairs.items) }
{
    let mut entries = Vec::with_capacity(alloc, pairs.len())?;
    for (key, value) in pairs {
        entries.push(Entry { key, value })?;
    }
    Ok(entries)
}

fn pairs_from(alloc: Global, fields: Vec<(Text, Value)>) -> Result<Vec<(Value, Value)>, AllocError>
    ensures { IfOk result (λ ps. ps.items ≡ fields_as_pairs fields.items) }
{
    let mut pairs = Vec::with_capacity(alloc, fields.len())?;
    for (name, value) in fields {
        pairs.push((Value::string(name), value))?;
    }
    Ok(pairs)
}

/// The members behind a handle, so that copies share their memory.
fn set_body(alloc: Global, items: Vec<Value>, levels: u8) -> Result<Rc<SetBody>, AllocError>
    ensures items { IfOk result (λ body. body.value.items ≡ items) }
    ensures levels { IfOk result (λ body. body.value.levels ≡ levels) }
    ensures hash { IfOk result (λ body. body.value.hash ≡ hash_of (set (vals_of items.items))) }
{
    let hash = hash_of_members(&items);
    let body = SetBody {
        levels,
        hash,
        items,
    };
    Ok(Rc::new(alloc, body)?)
}

/// The values of a sequence behind a handle, so that copies share their memory.
fn sequence_body(
    alloc: Global,
    items: Vec<Value>,
    levels: u8,
) -> Result<Rc<SequenceBody>, AllocError>
    ensures items { IfOk result (λ body. body.value.items ≡ items) }
    ensures levels { IfOk result (λ body. body.value.levels ≡ levels) }
    ensures hash { IfOk result (λ body. body.value.hash ≡ hash_of (sequence_of items.items)) }
{
    let hash = hash_of_items(&items);
    let body = SequenceBody {
        levels,
        hash,
        items,
    };
    Ok(Rc::new(alloc, body)?)
}

/// The fields behind a handle, so that copies share their memory.
fn record_body(alloc: Global, fields: Vec<Field>, levels: u8) -> Result<Rc<RecordBody>, AllocError>
    ensures fields { IfOk result (λ body. body.value.fields ≡ fields) }
    ensures levels { IfOk result (λ body. body.value.levels ≡ levels) }
    ensures hash { IfOk result (λ body. body.value.hash ≡ hash_of (function (fields_view fields.items))) }
{
    let hash = hash_of_fields(&fields);
    let body = RecordBody {
        levels,
        hash,
        fields,
    };
    Ok(Rc::new(alloc, body)?)
}

/// The pairs behind a handle, so that copies share their memory.
fn function_body(
    alloc: Global,
    entries: Vec<Entry>,
    levels: u8,
) -> Result<Rc<FunctionBody>, AllocError>
    ensures entries { IfOk result (λ body. body.value.entries ≡ entries) }
    ensures levels { IfOk result (λ body. body.value.levels ≡ levels) }
    ensures hash { IfOk result (λ body. body.value.hash ≡ hash_of (function (entries_view entries.items))) }
{
    let hash = hash_of_pairs(&entries);
    let body = FunctionBody {
        levels,
        hash,
        entries,
    };
    Ok(Rc::new(alloc, body)?)
}
