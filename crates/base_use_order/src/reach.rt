ghost use Rattle.std.specs.Prelude.{◌≡◌, ◌++◌, ◌<◌, ◌↔◌, IfOk, IsTrue, OnOk, length};
ghost use Rattle.base_use_order.specs.Uses.{IsWithin, UsesItself, table_of};

use crate::table::used_of;
use base_core::NoMemory;
use std::alloc::{AllocError, Global};

/// Whether the definition uses itself, directly or through others. One that only leads to such a one does
/// not, and a number of no definition uses nothing.
pub fn uses_itself(alloc: Global, uses: &[Vec<usize>], definition: usize) -> Result<bool, NoMemory>
    requires within { IsWithin (table_of uses.now) }
    ensures { IfOk result (λ found. IsTrue found ↔ UsesItself (table_of uses.now) definition) }
{
    if definition >= uses.len() {
        return Ok(false);
    }
    let mut reached = vec![in alloc; false; uses.len()]?;
    let mut waiting = Vec::new(alloc);
    waiting.extend_from_slice(used_of(uses, definition))?;
    while let Some(next) = waiting.pop() {
        if !reached[next] {
            reached[next] = true;
            waiting.extend_from_slice(used_of(uses, next))?;
        }
    }
    Ok(reached[definition])
}
