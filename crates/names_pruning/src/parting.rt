//! Units are parted into those that are left and those that go.

ghost use Rattle.std.specs.Prelude.{◌≡◌, ◌∷◌, ◌++◌, [], IfOk, OnOk, if◌then◌else◌, reverse};
ghost use Rattle.names_pruning.specs.Parts.{gone_of, left_of};

use crate::over::is_set_at;
use base_core::NoMemory;
use reading_trees::{Unit, Units};
use std::alloc::Global;

/// Units that are left, and those that go.
#[derive(Drop)]
pub(crate) struct Parts {
    pub(crate) left: Units,
    pub(crate) gone: Units,
}

/// Puts the unit behind those that go, or behind those that are left.
fn put(parts: &mut Parts, unit: Unit, is_gone: bool) -> Result<(), NoMemory>
    ensures left { OnOk result (parts.new.left ≡ parts.old.left ++ (if is_gone then [] else unit ∷ [])) }
    ensures gone { OnOk result (parts.new.gone ≡ parts.old.gone ++ (if is_gone then unit ∷ [] else [])) }
{
    if is_gone {
        return parts.gone.push(unit);
    }
    parts.left.push(unit)
}

/// The units parted, each part from its end.
fn parted_from_end(alloc: Global, units: Units, flags: &[bool]) -> Result<Parts, NoMemory>
    ensures left { IfOk result (λ parts. reverse parts.left ≡ left_of flags.now units) }
    ensures gone { IfOk result (λ parts. reverse parts.gone ≡ gone_of flags.now units) }
{
    let mut units = units;
    let mut parts = Parts {
        left: Units::new(alloc),
        gone: Units::new(alloc),
    };
    while let Some(unit) = units.pop() {
        put(&mut parts, unit, is_set_at(flags, Some(units.len())))?;
    }
    Ok(parts)
}

/// The units from the last to the first.
fn reversed(alloc: Global, units: Units) -> Result<Units, NoMemory>
    ensures { IfOk result (λ r. r ≡ reverse units) }
{
    let mut units = units;
    let mut reversed = Units::new(alloc);
    while let Some(unit) = units.pop() {
        reversed.push(unit)?;
    }
    Ok(reversed)
}

/// The units that are left and those that go, in their order.
pub(crate) fn parted(alloc: Global, units: Units, flags: &[bool]) -> Result<Parts, NoMemory>
    ensures left { IfOk result (λ parts. parts.left ≡ left_of flags.now units) }
    ensures gone { IfOk result (λ parts. parts.gone ≡ gone_of flags.now units) }
{
    let Parts { left, gone } = parted_from_end(alloc, units, flags)?;
    let left = reversed(alloc, left)?;
    let gone = reversed(alloc, gone)?;
    Ok(Parts { left, gone })
}
