//! Slots that are in scope.

ghost use Rattle.std.specs.Prelude.{◌≡◌, map, take};

use values_core::Value;

/// The outermost slots, so many of them, or all where there are fewer.
pub fn outermost<'a, 'b>(slots: &'b [&'a Value], kept: usize) -> &'b [&'a Value]
    ensures { map (λ v. v.now) result.now ≡ take kept (map (λ v. v.now) slots.now) }
{
    let count = kept.min(slots.len());
    &slots[..count]
}
