ghost use Rattle.std.specs.Prelude.{◌≡◌, ◌↔◌, ◌+◌, ◌<◌, ◌^◌, IfOk, IsTrue, List, MatchOption, Some, pos, refl, slice_get};
ghost use Rattle.std.specs.Cmp.{partial_equiv_from_equiv};
ghost use Rattle.std.specs.Cmp.Lexicographic.{slice_cmp};
ghost use Rattle.std.specs.Option.{option_map};
ghost use Rattle.values_core.specs.Data.{model, string, integer, truth, function, depth, int_of, bool_of, text_of, vals_of, Val};
ghost use Rattle.values_core.specs.Functions.{Applies, DomainByPairs, FunctionAnswers, FunctionsByPairs, IsSequence, OneValueAtKey, PairsAreValues, keys_in, pairs_in, sequence_of, values_in};
ghost use Rattle.values_core.specs.HashOf.{with_members};
ghost use Rattle.values_core.specs.IsValue.{IsValue};
ghost use Rattle.values_core.specs.Kind.{kind_of};
ghost use Rattle.values_core.specs.Order.{val_cmp, val_eq, kind_rank};
ghost use Rattle.values_core.specs.OrderLaws.{val_total, val_order, val_eq_equiv};
ghost use Rattle.values_core.specs.Sets.{Member, MembersAreValues, SetAnswers, SetsByMembers, count_of, items_of};
ghost use Rattle.values_core.specs.View.{HasOneForm, entries_view, entry_cmp, field_cmp, fields_view, kept_hash, kept_levels, node_view};

use base_core::Text;
use forms::{
    apply_entries, apply_fields, apply_items, copy_fields, copy_pairs, entry_at, field_at, item_at,
    key_of_entry, name_at, number_items, place, place_at,
};
use hash::with_items;
use std::alloc::{AllocError, Global};
use std::cmp::Ordering;
use std::marker::Model;
use std::rc::Rc;
use thiserror::Error;

mod forms;
mod hash;
mod making;

/// What a value is, in the order in which values of unlike kinds stand.
#[derive(Clone, Copy, Debug, Drop, PartialEq, Eq, PartialOrd, Ord)]
pub enum ValueKind {
    Model,
    Bool,
    Int,
    String,
    Set,
    Function,
}

/// Why there is no such set or function, in the order in which it is tested.
#[derive(Clone, Copy, Debug, Drop, PartialEq, Eq, Error)]
pub enum ValueFault {
    /// A function is given one key twice.
    #[error("a key stands twice")]
    KeyTwice,
    /// More than 100,000 different members, or pairs.
    #[error("more than 100,000 members")]
    TooLarge,
    /// More than 32 levels.
    #[error("more than 32 levels")]
    TooDeep,
    #[error("out of memory")]
    NoMemory,
}

impl From<AllocError> for ValueFault {
    ghost use Rattle.std.specs.Prelude.{◌≡◌};
    ghost use Rattle.values_core.specs.declared.value.ValueFault.TheVariants.{NoMemory};

    ghost from_gives = { λ _ e. e ≡ NoMemory };

    fn from(_e: AllocError) -> ValueFault {
        ValueFault::NoMemory
    }
}

/// A value of TLA+, seen as its tree.
///
/// A sequence of length n is the function with the domain `1..n`, and a record the function on its
/// field names. A set and a function keep their depth and their hash.
#[cycle(value)]
#[derive(Debug)]
pub struct Value {
    node: Node,
}

/// Written, so that whoever lets a value go makes one call, whatever forms a value has.
impl Drop for Value {
    #[cycle(value)]
    fn drop(self) {
        let Value { node } = self;
        drop(node);
    }
}

/// A value by its kind, and a function by its form: a function on 1 to some number is a sequence,
/// another whose keys are all strings is a record, and every other keeps its pairs. So one value has
/// one form. Members, fields and pairs stand in ascending order, and copies share them.
#[cycle(value)]
#[derive(Debug, Drop)]
enum Node {
    Model(Text),
    Bool(bool),
    Int(i64),
    String(Text),
    Set(Rc<SetBody>),
    Sequence(Rc<SequenceBody>),
    Record(Rc<RecordBody>),
    Function(Rc<FunctionBody>),
}

/// The members of a set, its depth and its hash.
#[cycle(value)]
#[derive(Debug, Drop)]
struct SetBody {
    levels: u8,
    hash: u64,
    items: Vec<Value>,
}

/// The values of a function on 1 to their number, its depth and its hash.
#[cycle(value)]
#[derive(Debug, Drop)]
struct SequenceBody {
    levels: u8,
    hash: u64,
    items: Vec<Value>,
}

/// The fields of a function on strings, of which there is one at least, its depth and its hash.
#[cycle(value)]
#[derive(Debug, Drop)]
struct RecordBody {
    levels: u8,
    hash: u64,
    fields: Vec<Field>,
}

/// A pair of a function whose key is a string.
#[cycle(value)]
#[derive(Debug, Drop)]
struct Field {
    name: Text,
    value: Value,
}

/// The pairs of a function, its depth and its hash.
#[cycle(value)]
#[derive(Debug, Drop)]
struct FunctionBody {
    levels: u8,
    hash: u64,
    entries: Vec<Entry>,
}

/// A pair of a function: what it is applied to, and its value there.
#[cycle(value)]
#[derive(Debug, Drop)]
struct Entry {
    key: Value,
    value: Value,
}

impl Model for Value {
    ghost use Rattle.values_core.specs.Data.{Val, depth};
    ghost use Rattle.values_core.specs.Tree.{val_code};

    ghost Value = { Val };

    ghost coded = { val_code };

    ghost use Rattle.values_core.specs.View.{node_view, IsKept};

    ghost view = { λ a. node_view a.node };

    ghost invariant = { λ a. IsKept a.node };

    ghost size = { depth };

    ghost use Rattle.values_core.specs.Falls.{deep_le-depth};

    ghost size_decreases = { λ a h. deep_le-depth a.node };
}

impl Value {
    pub fn int(n: i64) -> Value
        ensures { result ≡ integer n }
    {
        Value { node: Node::Int(n) }
    }

    pub fn boolean(b: bool) -> Value
        ensures { result ≡ truth b }
    {
        Value {
            node: Node::Bool(b),
        }
    }

    pub fn string(text: Text) -> Value
        ensures { result ≡ string text }
    {
        text.is_text();
        Value {
            node: Node::String(text),
        }
    }

    /// The model value of this name.
    pub fn model(name: Text) -> Value
        ensures { result ≡ model name }
    {
        name.is_text();
        Value {
            node: Node::Model(name),
        }
    }

    pub fn kind(&self) -> ValueKind
        ensures { result ≡ kind_of self.now }
    {
        match &self.node {
            Node::Model(_) => ValueKind::Model,
            Node::Bool(_) => ValueKind::Bool,
            Node::Int(_) => ValueKind::Int,
            Node::String(_) => ValueKind::String,
            Node::Set(_) => ValueKind::Set,
            Node::Sequence(_) => ValueKind::Function,
            Node::Record(_) => ValueKind::Function,
            Node::Function(_) => ValueKind::Function,
        }
    }

    /// The integer that it is, or none.
    pub fn as_int(&self) -> Option<i64>
        ensures { result ≡ int_of self.now }
    {
        match &self.node {
            Node::Int(n) => Some(*n),
            _ => None,
        }
    }

    /// The truth value that it is, or none.
    pub fn as_bool(&self) -> Option<bool>
        ensures { result ≡ bool_of self.now }
    {
        match &self.node {
            Node::Bool(b) => Some(*b),
            _ => None,
        }
    }

    /// The text of a string or of a model value, or none.
    pub fn as_text(&self) -> Option<&Text>
        ensures { option_map (λ t. t.now) result ≡ text_of self.now }
    {
        match &self.node {
            Node::Model(text) => Some(text),
            Node::String(text) => Some(text),
            _ => None,
        }
    }

    /// That what is held is a value: canonical at every level, and within the limits.
    pub fn is_value(&self)
        ensures { IsValue self.now }
    {
        let _ = &self.node;
    }

    /// How deep sets and functions stand inside each other in it.
    pub fn levels(&self) -> u8
        ensures { result ≡ depth self.now }
    {
        kept(&self.node)
    }

    /// How many members a set, or pairs a function, has, and 0 for all else.
    pub fn len(&self) -> usize
        ensures { result ≡ count_of self.now }
    {
        match &self.node {
            Node::Set(body) => body.items.len(),
            Node::Sequence(body) => body.items.len(),
            Node::Record(body) => body.fields.len(),
            Node::Function(body) => body.entries.len(),
            _ => 0,
        }
    }

    /// The member of a set at `i` in ascending order, from 0.
    pub fn member_at(&self, i: usize) -> Option<&Value>
        ensures { option_map (λ v. v.now) result ≡ slice_get (items_of self.now) i }
    {
        match &self.node {
            Node::Set(body) => {
                let items = &body.items;
                if i < items.len() {
                    Some(&items[i])
                } else {
                    None
                }
            }
            _ => None,
        }
    }

    /// The members of a set in ascending order, and none where it is no set.
    pub fn members(&self) -> &[Value]
        ensures { result.now ≡ items_of self.now }
    {
        match &self.node {
            Node::Set(body) => body.items.as_slice(),
            _ => &[],
        }
    }

    /// Whether it is a sequence: a function on 1 to some number.
    pub fn is_sequence(&self) -> bool
        ensures { IsTrue result ↔ IsSequence self.now }
    {
        match &self.node {
            Node::Sequence(_) => true,
            _ => false,
        }
    }

    /// Lends the values in order exactly where the value is a function with the domain `1..n`. Takes
    /// no memory.
    pub fn items(&self) -> Option<&[Value]>
        ensures { MatchOption result (¬ IsSequence self.now) (λ vs. IsSequence self.now × (vs.now ≡ values_in self.now)) }
    {
        match &self.node {
            Node::Sequence(body) => Some(body.items.as_slice()),
            _ => None,
        }
    }

    /// The value of a function at its key at `i` in ascending order, from 0.
    pub fn value_at(&self, i: usize) -> Option<&Value>
        ensures { option_map (λ v. v.now) result ≡ slice_get (values_in self.now) i }
    {
        match &self.node {
            Node::Sequence(body) => item_at(&body.items, i),
            Node::Record(body) => field_at(&body.fields, i),
            Node::Function(body) => entry_at(&body.entries, i),
            _ => None,
        }
    }

    /// The key of a function at `i` in ascending order, from 0.
    pub fn key_at(&self, i: usize) -> Result<Option<Value>, AllocError>
        ensures { IfOk result (λ key. key ≡ slice_get (keys_in self.now) i) }
    {
        match &self.node {
            Node::Sequence(body) => Ok(place_at(&body.items, i)),
            Node::Record(body) => name_at(&body.fields, i),
            Node::Function(body) => key_of_entry(&body.entries, i),
            _ => Ok(None),
        }
    }

    /// A copy of the pairs of a function in order, and none where it is no function.
    pub fn pairs(&self, alloc: Global) -> Result<Vec<(Value, Value)>, AllocError>
        ensures { IfOk result (λ pairs. pairs.items ≡ pairs_in self.now) }
    {
        match &self.node {
            Node::Sequence(body) => number_items(alloc, &body.items),
            Node::Record(body) => copy_fields(alloc, &body.fields),
            Node::Function(body) => copy_pairs(alloc, &body.entries),
            _ => Ok(Vec::new(alloc)),
        }
    }

    /// Whether `v` is a member of this set.
    pub fn contains(&self, v: &Value) -> bool
        ensures { IsTrue result ↔ Member v.now self.now }
    {
        match &self.node {
            Node::Set(body) => body.items.as_slice().binary_search(v).is_ok(),
            _ => false,
        }
    }

    /// The value of this function at the key; none where it is no function, or the key is outside
    /// its domain.
    pub fn apply(&self, key: &Value) -> Option<&Value>
        ensures { Applies self.now key.now (option_map (λ v. v.now) result) }
    {
        match &self.node {
            Node::Sequence(body) => apply_items(&body.items, key),
            Node::Record(body) => apply_fields(&body.fields, key),
            Node::Function(body) => apply_entries(&body.entries, key),
            _ => None,
        }
    }

    /// An equal value.
    pub fn copy(&self) -> Result<Value, AllocError>
        ensures { IfOk result (λ v. v ≡ self.now) }
    {
        copy_value(self)
    }

    /// What determines a set, and a function.
    pub fn laws()
        ensures sets { SetsByMembers }
        ensures functions { FunctionsByPairs }
        ensures one_value { OneValueAtKey }
        ensures domain { DomainByPairs }
        ensures set_answers { (xs : List Val) → SetAnswers xs }
    {}

    /// What making a function answers, and that what stands in a value is a value.
    pub fn making_laws()
        ensures function_answers { (pairs : List (Val × Val)) → FunctionAnswers pairs }
        ensures members { MembersAreValues }
        ensures pairs { PairsAreValues }
    {}

    /// The hash of these values one behind the other: each one's is mixed in.
    pub fn hash_of_all(values: &Vec<Value>) -> u64
        ensures { result ≡ with_members 0 (vals_of values.now.items) }
    {
        with_items(0, values)
    }

    /// Whether both are one value.
    pub fn same(&self, other: &Value) -> bool
        ensures { IsTrue result ↔ (self.now ≡ other.now) }
    {
        self == other
    }
}

impl PartialEq for Value {
    ghost eq = { val_eq };

    ghost laws = { partial_equiv_from_equiv val_eq_equiv };

    fn eq(&self, other: &Value) -> bool {
        match (&self.node, &other.node) {
            (Node::Set(x), Node::Set(y)) => {
                if x.hash != y.hash {
                    return false;
                }
                compare(self, other).is_eq()
            }
            (Node::Sequence(x), Node::Sequence(y)) => {
                if x.hash != y.hash {
                    return false;
                }
                compare(self, other).is_eq()
            }
            (Node::Record(x), Node::Record(y)) => {
                if x.hash != y.hash {
                    return false;
                }
                compare(self, other).is_eq()
            }
            (Node::Function(x), Node::Function(y)) => {
                if x.hash != y.hash {
                    return false;
                }
                compare(self, other).is_eq()
            }
            (Node::Int(x), Node::Int(y)) => x.cmp(y).is_eq(),
            (Node::String(x), Node::String(y)) => x.cmp(y).is_eq(),
            (Node::Model(x), Node::Model(y)) => x.cmp(y).is_eq(),
            _ => compare(self, other).is_eq(),
        }
    }
}

impl Eq for Value {
    ghost laws = { val_eq_equiv };
}

impl PartialOrd for Value {
    ghost partial_cmp = { λ a b. Some (val_cmp a b) };

    ghost laws = { val_order };

    fn partial_cmp(&self, other: &Value) -> Option<Ordering> {
        Some(compare(self, other))
    }
}

impl Ord for Value {
    ghost cmp = { val_cmp };

    ghost total = { val_total };

    ghost matches_partial_cmp = { λ a b. refl };

    ghost matches_eq = { λ a b. refl };

    fn cmp(&self, other: &Value) -> Ordering {
        compare(self, other)
    }
}

/// The depth that a node keeps.
fn kept(node: &Node) -> u8
    ensures { result ≡ kept_levels node.now }
{
    match node {
        Node::Set(body) => body.levels,
        Node::Sequence(body) => body.levels,
        Node::Record(body) => body.levels,
        Node::Function(body) => body.levels,
        _ => 0,
    }
}

/// The place of the value's kind among the six.
fn rank(value: &Value) -> u8
    ensures { result ≡ kind_rank value.now }
{
    match &value.node {
        Node::Model(_) => 0,
        Node::Bool(_) => 1,
        Node::Int(_) => 2,
        Node::String(_) => 3,
        Node::Set(_) => 4,
        Node::Sequence(_) => 5,
        Node::Record(_) => 5,
        Node::Function(_) => 5,
    }
}

/// The order of values: by kind, then FALSE before TRUE, integers by size, texts by bytes, sets as
/// ascending lists of members, functions as lists of pairs ascending by key.
#[cycle(compare)]
#[tactic(auto, unfolding(crate::specs::Order::val_cmp))]
fn compare(a: &Value, b: &Value) -> Ordering
    ensures { result ≡ val_cmp a.now b.now }
{
    match (&a.node, &b.node) {
        (Node::Model(x), Node::Model(y)) => x.cmp(y),
        (Node::Bool(x), Node::Bool(y)) => x.cmp(y),
        (Node::Int(x), Node::Int(y)) => x.cmp(y),
        (Node::String(x), Node::String(y)) => x.cmp(y),
        (Node::Set(x), Node::Set(y)) => compare_items(&x.items, &y.items),
        (Node::Sequence(x), Node::Sequence(y)) => compare_items(&x.items, &y.items),
        (Node::Record(x), Node::Record(y)) => compare_fields(&x.fields, &y.fields),
        (Node::Function(x), Node::Function(y)) => compare_entries(&x.entries, &y.entries),
        (Node::Sequence(_), Node::Record(_)) => Ordering::Less,
        (Node::Record(_), Node::Sequence(_)) => Ordering::Greater,
        (Node::Sequence(x), Node::Function(y)) => compare_places(&x.items, &y.entries),
        (Node::Function(x), Node::Sequence(y)) => compare_places(&y.items, &x.entries).reverse(),
        (Node::Record(x), Node::Function(y)) => compare_names(&x.fields, &y.entries),
        (Node::Function(x), Node::Record(y)) => compare_names(&y.fields, &x.entries).reverse(),
        _ => rank(a).cmp(&rank(b)),
    }
}

#[cycle(compare)]
fn compare_items(a: &Vec<Value>, b: &Vec<Value>) -> Ordering
    ensures { result ≡ slice_cmp val_cmp a.now.items b.now.items }
{
    let shared = a.len().min(b.len());
    for i in 0..shared {
        let order = compare(&a[i], &b[i]);
        if order.is_ne() {
            return order;
        }
    }
    a.len().cmp(&b.len())
}

#[cycle(compare)]
fn compare_entries(a: &Vec<Entry>, b: &Vec<Entry>) -> Ordering
    ensures { result ≡ slice_cmp entry_cmp a.now.items b.now.items }
{
    let shared = a.len().min(b.len());
    for i in 0..shared {
        let x = &a[i];
        let y = &b[i];
        let order = compare(&x.key, &y.key).then(compare(&x.value, &y.value));
        if order.is_ne() {
            return order;
        }
    }
    a.len().cmp(&b.len())
}

#[cycle(compare)]
fn compare_fields(a: &Vec<Field>, b: &Vec<Field>) -> Ordering
    ensures { result ≡ slice_cmp field_cmp a.now.items b.now.items }
{
    let shared = a.len().min(b.len());
    for i in 0..shared {
        let x = &a[i];
        let y = &b[i];
        let order = x.name.cmp(&y.name).then(compare(&x.value, &y.value));
        if order.is_ne() {
            return order;
        }
    }
    a.len().cmp(&b.len())
}

/// A sequence against a function of another form.
#[cycle(compare)]
fn compare_places(a: &Vec<Value>, b: &Vec<Entry>) -> Ordering
    ensures { result ≡ val_cmp (sequence_of a.now.items) (function (entries_view b.now.items)) }
{
    let shared = a.len().min(b.len());
    for i in 0..shared {
        let x = &a[i];
        let y = &b[i];
        let order = compare_place(i, &y.key).then(compare(x, &y.value));
        if order.is_ne() {
            return order;
        }
    }
    a.len().cmp(&b.len())
}

/// A record against a function of another form.
#[cycle(compare)]
fn compare_names(a: &Vec<Field>, b: &Vec<Entry>) -> Ordering
    ensures { result ≡ val_cmp (function (fields_view a.now.items)) (function (entries_view b.now.items)) }
{
    let shared = a.len().min(b.len());
    for i in 0..shared {
        let x = &a[i];
        let y = &b[i];
        let order = compare_name(&x.name, &y.key).then(compare(&x.value, &y.value));
        if order.is_ne() {
            return order;
        }
    }
    a.len().cmp(&b.len())
}

/// The key of a sequence at `i`, which counts from 0, against a value.
#[tactic(auto, unfolding(crate::specs::Order::val_cmp))]
fn compare_place(i: usize, key: &Value) -> Ordering
    requires { i + 1 < 2 ^ 63 }
    ensures { result ≡ val_cmp (integer (pos (i + 1))) key.now }
{
    match &key.node {
        Node::Int(n) => place(i).cmp(n),
        _ => 2_u8.cmp(&rank(key)),
    }
}

/// A string of these bytes against a value.
#[tactic(auto, unfolding(crate::specs::Order::val_cmp))]
fn compare_name(name: &Text, key: &Value) -> Ordering
    ensures { result ≡ val_cmp (string name.now) key.now }
{
    match &key.node {
        Node::String(text) => name.cmp(text),
        _ => 3_u8.cmp(&rank(key)),
    }
}

fn copy_value(value: &Value) -> Result<Value, AllocError>
    ensures { IfOk result (λ v. v ≡ value.now) }
{
    let node = copy_node(&value.node)?;
    Ok(Value { node })
}

/// The same node: members and pairs are shared, and none is copied.
fn copy_node(node: &Node) -> Result<Node, AllocError>
    ensures view { IfOk result (λ n. node_view n ≡ node_view node.now) }
    ensures levels { IfOk result (λ n. kept_levels n ≡ kept_levels node.now) }
    ensures hash { IfOk result (λ n. kept_hash n ≡ kept_hash node.now) }
    ensures form { IfOk result (λ n. HasOneForm node.now → HasOneForm n) }
{
    match node {
        Node::Model(name) => Ok(Node::Model(name.copy()?)),
        Node::Bool(b) => Ok(Node::Bool(*b)),
        Node::Int(n) => Ok(Node::Int(*n)),
        Node::String(text) => Ok(Node::String(text.copy()?)),
        Node::Set(body) => Ok(Node::Set(body.clone()?)),
        Node::Sequence(body) => Ok(Node::Sequence(body.clone()?)),
        Node::Record(body) => Ok(Node::Record(body.clone()?)),
        Node::Function(body) => Ok(Node::Function(body.clone()?)),
    }
}
