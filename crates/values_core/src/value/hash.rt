ghost use Rattle.std.specs.Prelude.{◌≡◌};
ghost use Rattle.std.proofs.Common.{ap};
ghost use Rattle.values_core.specs.Data.{function, integer, set, vals_of};
ghost use Rattle.values_core.specs.Functions.{sequence_of};
ghost use Rattle.values_core.specs.HashInput.{hash_input};
ghost use Rattle.values_core.specs.HashOf.{hash_of, mix, truth_hash, with_bytes, with_members};
ghost use Rattle.values_core.specs.OrderLaws.{val_same};
ghost use Rattle.values_core.specs.View.{entries_view, fields_view};

use super::{Entry, Field, Node, Value};
use base_core::Text;
use std::hash::{Hash, Hasher};

/// What the hash of a model value begins with.
const MODEL: u64 = 0x4528_21e6_38d0_1377;
/// What the hash of a string begins with.
const STRING: u64 = 0xbe54_66cf_34e9_0c6c;
/// What the hash of a set begins with.
const SET: u64 = 0x9e37_79b9_7f4a_7c15;
/// What the hash of a function begins with.
const FUNCTION: u64 = 0x243f_6a88_85a3_08d3;

impl Hash for Value {
    ghost hash_input = { hash_input };

    ghost respects_eq = { λ a b e. ap hash_input (val_same a b e) };

    fn hash<H: Hasher>(&self, state: &mut H) {
        state.write_u64(hash_of(self));
    }
}

/// The hash of a value: a set and a function keep it, and of all else it is made at each call.
pub(super) fn hash_of(value: &Value) -> u64
    ensures { result ≡ hash_of value.now }
{
    match &value.node {
        Node::Model(name) => hash_of_text(MODEL, name),
        Node::Bool(b) => hash_of_truth(*b),
        Node::Int(n) => hash_of_int(*n),
        Node::String(text) => hash_of_text(STRING, text),
        Node::Set(body) => body.hash,
        Node::Sequence(body) => body.hash,
        Node::Record(body) => body.hash,
        Node::Function(body) => body.hash,
    }
}

fn hash_of_truth(b: bool) -> u64
    ensures { result ≡ truth_hash b }
{
    if b {
        0xa409_3822_299f_31d0
    } else {
        0x1319_8a2e_0370_7344
    }
}

/// The bits of an integer.
fn hash_of_int(n: i64) -> u64
    ensures { result ≡ hash_of (integer n) }
{
    n.cast_unsigned()
}

/// The hash with the bytes of a text mixed in.
fn hash_of_text(begun: u64, text: &Text) -> u64
    ensures { result ≡ with_bytes begun text.now }
{
    let mut hash = begun;
    for byte in text.as_str().as_bytes() {
        hash = mix(hash, *byte as u64);
    }
    hash
}

/// The hash with one more mixed in.
#[tactic(auto, unfolding(crate::specs::HashOf::mix))]
fn mix(hash: u64, more: u64) -> u64
    ensures { result ≡ mix hash more }
{
    (hash ^ more)
        .wrapping_mul(0x5851_f42d_4c95_7f2d)
        .rotate_left(32)
}

/// The hash with those of these values mixed in.
pub(super) fn with_items(begun: u64, items: &Vec<Value>) -> u64
    ensures { result ≡ with_members begun (vals_of items.now.items) }
{
    let mut hash = begun;
    for item in items {
        hash = mix(hash, hash_of(item));
    }
    hash
}

/// The hash of the set of these members.
pub(super) fn hash_of_members(items: &Vec<Value>) -> u64
    ensures { result ≡ hash_of (set (vals_of items.now.items)) }
{
    with_items(SET, items)
}

/// The hash of the sequence of these values: that of the function on 1 to their number.
pub(super) fn hash_of_items(items: &Vec<Value>) -> u64
    ensures { result ≡ hash_of (sequence_of items.now.items) }
{
    with_items(FUNCTION, items)
}

/// The hash of the function with these pairs.
pub(super) fn hash_of_pairs(entries: &Vec<Entry>) -> u64
    ensures { result ≡ hash_of (function (entries_view entries.now.items)) }
{
    let mut hash = FUNCTION;
    for entry in entries {
        hash = mix(hash, hash_of(&entry.value));
    }
    hash
}

/// The hash of the record with these fields.
pub(super) fn hash_of_fields(fields: &Vec<Field>) -> u64
    ensures { result ≡ hash_of (function (fields_view fields.now.items)) }
{
    let mut hash = FUNCTION;
    for field in fields {
        hash = mix(hash, hash_of(&field.value));
    }
    hash
}
