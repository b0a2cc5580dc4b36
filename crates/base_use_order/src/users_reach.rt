//! What is led to from some definitions.

ghost use Rattle.std.specs.Prelude.{◌≡◌, ◌<◌, ◌↔◌, ℕ, true, All, IfOk, length};
ghost use Rattle.std.specs.List.{slice_index_or};
ghost use Rattle.base_use_order.specs.Uses.{IsWithin, table_of, used_by};
ghost use Rattle.base_use_order.specs.Reach.{IsLedTo, IsReached};

use base_core::NoMemory;
use std::alloc::Global;

/// What the definition uses.
pub(crate) fn used_of(uses: &[Vec<usize>], definition: usize) -> &[usize]
    requires { definition < length uses.now }
    ensures { result.now ≡ used_by (table_of uses.now) definition }
{
    uses[definition].as_slice()
}

/// For each definition whether it is one of these, or is used by one of them, directly or through others.
pub fn reached(alloc: Global, uses: &[Vec<usize>], from: &[usize]) -> Result<Vec<bool>, NoMemory>
    requires within { IsWithin (table_of uses.now) }
    requires from { All (λ a. a < length uses.now) from.now }
    ensures sizes { IfOk result (λ r. length r.items ≡ length uses.now) }
    ensures exact { IfOk result (λ r. (a : ℕ) → IsReached r.items a ↔ IsLedTo (table_of uses.now) from.now a) }
{
    let mut reached = vec![in alloc; false; uses.len()]?;
    let mut waiting = Vec::from_slice(alloc, from)?;
    while let Some(next) = waiting.pop() {
        if !reached[next] {
            reached[next] = true;
            waiting.extend_from_slice(used_of(uses, next))?;
        }
    }
    Ok(reached)
}
