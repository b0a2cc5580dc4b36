//! Lists of places that are found, and of slots.

ghost use Rattle.std.specs.Prelude.{◌≡◌, ◌++◌, ◌∷◌, [], OnOk, if◌then◌else◌, map, take};

use states_core::Partial;
use std::alloc::AllocError;
use values_core::Value;

/// Adds places at the end. The first ones are taken as they come.
pub fn append(found: &mut Vec<Partial>, more: Vec<Partial>) -> Result<(), AllocError>
    ensures { OnOk result (found.new.items ≡ found.old.items ++ more.items) }
{
    if found.is_empty() {
        *found = more;
        return Ok(());
    }
    push_each(found, more)
}

fn push_each(found: &mut Vec<Partial>, more: Vec<Partial>) -> Result<(), AllocError>
    ensures { OnOk result (found.new.items ≡ found.old.items ++ more.items) }
{
    for places in more {
        found.push(places)?;
    }
    Ok(())
}

/// Adds the places, where it holds.
pub fn add_if(found: &mut Vec<Partial>, holds: bool, places: Partial) -> Result<(), AllocError>
    ensures { OnOk result (found.new.items ≡ found.old.items ++ (if holds then places ∷ [] else [])) }
{
    if holds {
        found.push(places)?;
        return Ok(());
    }
    Ok(())
}

/// The outermost slots, so many of them, or all where there are fewer.
pub fn outermost<'a, 'b>(slots: &'b [&'a Value], kept: usize) -> &'b [&'a Value]
    ensures { map (λ v. v.now) result.now ≡ take kept (map (λ v. v.now) slots.now) }
{
    let count = kept.min(slots.len());
    &slots[..count]
}
