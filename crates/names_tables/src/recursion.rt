//! Which definitions use themselves, and which do so wrongly.

ghost use Rattle.std.specs.Prelude.{◌↔◌, ◌≡◌, IfOk, IsTrue, false, length};
ghost use Rattle.std.specs.List.{slice_index_or};
ghost use Rattle.base_use_order.specs.Uses.{IsWithin, SomeUsesItself, UsesItself, table_of};
ghost use Rattle.names_tables.specs.UnitComplaints.{AreRecursive, AreWrongBy, is_wrong};

use base_core::NoMemory;
use base_use_order::{order, uses_itself};
use std::alloc::Global;

/// The mark at an index, if there is one.
pub(crate) fn is_marked(marks: &[bool], index: usize) -> bool
    ensures { result ≡ slice_index_or marks.now index false }
{
    match marks.get(index) {
        Some(mark) => *mark,
        None => false,
    }
}

/// Whether none of the definitions uses itself.
fn is_acyclic(alloc: Global, uses: &[Vec<usize>]) -> Result<bool, NoMemory>
    requires { IsWithin (table_of uses.now) }
    ensures { IfOk result (λ b. IsTrue b → ¬ SomeUsesItself (table_of uses.now)) }
{
    let found = order(alloc, uses)?;
    Ok(found.is_some())
}

/// Whether the definition of that index uses itself, where none does if this is known.
fn is_recursive(
    alloc: Global,
    uses: &[Vec<usize>],
    acyclic: bool,
    index: usize,
) -> Result<bool, NoMemory>
    requires within { IsWithin (table_of uses.now) }
    requires acyclic { IsTrue acyclic → ¬ SomeUsesItself (table_of uses.now) }
    ensures { IfOk result (λ b. IsTrue b ↔ UsesItself (table_of uses.now) index) }
{
    if acyclic {
        return Ok(false);
    }
    uses_itself(alloc, uses, index)
}

/// Of each definition whether it uses itself, by the definitions that each uses.
pub(crate) fn recursive(alloc: Global, uses: &[Vec<usize>]) -> Result<Vec<bool>, NoMemory>
    requires { IsWithin (table_of uses.now) }
    ensures count { IfOk result (λ marks. length marks.items ≡ length uses.now) }
    ensures exact { IfOk result (λ marks. AreRecursive (table_of uses.now) marks.items) }
{
    let acyclic = is_acyclic(alloc, uses)?;
    let mut marks = Vec::new(alloc);
    for index in 0..uses.len() {
        let itself = is_recursive(alloc, uses, acyclic, index)?;
        marks.push(itself)?;
    }
    Ok(marks)
}

/// Whether a definition uses itself wrongly: by uses of which none is allowed, or where it is above level 0.
fn is_wrong(strictly: bool, itself: bool, above: bool) -> bool
    ensures { result ≡ is_wrong strictly itself above }
{
    if strictly {
        return true;
    }
    if itself {
        return above;
    }
    false
}

/// Of each definition whether it uses itself wrongly, by marks of all: whether it uses itself by uses of which none is allowed, whether it does at all, and
/// whether it is above level 0.
pub(crate) fn wrong_marks(
    alloc: Global,
    strictly: &[bool],
    itself: &[bool],
    above: &[bool],
) -> Result<Vec<bool>, NoMemory>
    requires { length strictly.now ≡ length itself.now }
    ensures { IfOk result (λ marks. AreWrongBy strictly.now itself.now above.now marks.items) }
{
    let mut marks = Vec::new(alloc);
    for index in 0..itself.len() {
        let wrong = is_wrong(
            is_marked(strictly, index),
            is_marked(itself, index),
            is_marked(above, index),
        );
        marks.push(wrong)?;
    }
    Ok(marks)
}
