//! Copies of what holds no term.

ghost use Rattle.std.specs.Prelude.{◌≡◌, ◌<◌, ◌++◌, ◌∷◌, [], IfOk, OnOk, length, slice_index};
ghost use Rattle.names_terms.specs.Terms.{Known};
ghost use Rattle.names_term_copies.specs.Rows.{begun_meaning};

use crate::rows::Begun;
use base_core::NoMemory;
use names_terms::{DefIds, TermNode};
use std::alloc::Global;
use values_core::Value;

/// Equal numbers of definitions.
pub fn copy_ids(alloc: Global, ids: &DefIds) -> Result<DefIds, NoMemory>
    ensures { IfOk result (λ copy. copy ≡ ids.now) }
{
    let mut copy = DefIds::new(alloc);
    for i in 0..ids.len() {
        push_id(&mut copy, ids, i)?;
    }
    Ok(copy)
}

/// Adds the number at an index.
fn push_id(copy: &mut DefIds, ids: &DefIds, i: usize) -> Result<(), NoMemory>
    requires { i < length ids.now }
    ensures { OnOk result (copy.new ≡ copy.old ++ slice_index ids.now i ∷ []) }
{
    match ids.get(i) {
        Some(id) => copy.push(id),
        None => unreachable!(),
    }
}

pub fn known<'a>(value: &Value) -> Result<Begun<'a>, NoMemory>
    ensures { IfOk result (λ b. begun_meaning b ≡ Known value.now) }
{
    let value = value.copy()?;
    Ok(Begun::Whole(TermNode::Known(value)))
}
