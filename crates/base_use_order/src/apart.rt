//! Uses of definitions, with those left out that marked definitions make.

ghost use Rattle.std.specs.Prelude.{◌≡◌, ◌<◌, ℕ, false, IfOk, IsTrue, length};
ghost use Rattle.std.specs.List.{slice_index_or};
ghost use Rattle.base_use_order.specs.Uses.{IsWithin, UsesItself, table_of, used_by};
ghost use Rattle.base_use_order.specs.Apart.{AreApart, IsOrderApart, kept_by};

use crate::walk::order;
use base_core::NoMemory;
use std::alloc::Global;

/// The mark at an index, if there is one.
fn is_marked(marks: &[bool], index: usize) -> bool
    ensures { result ≡ slice_index_or marks.now index false }
{
    match marks.get(index) {
        Some(mark) => *mark,
        None => false,
    }
}

/// What the definition uses: nothing where it is marked.
#[tactic(auto, using(crate::proofs::LeftOut::kept_marked, crate::proofs::LeftOut::kept_free))]
fn used_apart(
    alloc: Global,
    uses: &[Vec<usize>],
    marks: &[bool],
    index: usize,
) -> Result<Vec<usize>, NoMemory>
    requires { index < length uses.now }
    ensures { IfOk result (λ used. used.items ≡ kept_by (slice_index_or marks.now index false) (used_by (table_of uses.now) index)) }
{
    let mut used = Vec::new(alloc);
    if is_marked(marks, index) {
        return Ok(used);
    }
    used.extend_from_slice(uses[index].as_slice())?;
    Ok(used)
}

/// The uses of those that are not marked.
fn apart(alloc: Global, uses: &[Vec<usize>], marks: &[bool]) -> Result<Vec<Vec<usize>>, NoMemory>
    ensures { IfOk result (λ others. AreApart marks.now (table_of uses.now) (table_of others.items)) }
{
    let mut others = Vec::new(alloc);
    for index in 0..uses.len() {
        let used = used_apart(alloc, uses, marks, index)?;
        others.push(used)?;
    }
    Ok(others)
}

/// An order in which definitions may be resolved: each once, and what one uses before it, unless it is marked. All that use themselves are marked.
pub fn order_apart(
    alloc: Global,
    uses: &[Vec<usize>],
    marks: &[bool],
) -> Result<Vec<usize>, NoMemory>
    requires within { IsWithin (table_of uses.now) }
    requires marked { (a : ℕ) → UsesItself (table_of uses.now) a → IsTrue (slice_index_or marks.now a false) }
    ensures { IfOk result (λ order. IsOrderApart marks.now (table_of uses.now) order.items) }
{
    let others = apart(alloc, uses, marks)?;
    let found = order(alloc, &others)?;
    match found {
        Some(order) => Ok(order),
        None => unreachable!(),
    }
}
