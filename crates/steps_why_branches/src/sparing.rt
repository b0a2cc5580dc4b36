//! Parts that are passed over where they do not hold.

ghost use Rattle.std.specs.Prelude.{◌≡◌, IfOk, map};

use crate::why::Why;
use base_core::{NoMemory, Place};
use names_terms::DefId;
use std::alloc::{AllocError, Global};
use std::marker::Model;
use values_core::Value;

/// Which parts may be passed over where they do not hold.
#[derive(Clone, Copy, Drop)]
pub enum Passing {
    /// None.
    Nothing,
    /// Those at the place.
    At(Place),
    /// Those at one place: that of the first that does not hold.
    OnePlace,
}

/// Which parts may be passed over; and the definition in whose body the walk is, if it is in one, the innermost.
#[derive(Clone, Copy, Drop)]
pub struct Sparing {
    pub at: Passing,
    pub call: Option<DefId>,
}

/// The values in scope, the outermost first, seen as the list of them.
#[derive(Drop)]
pub struct Slots {
    items: Vec<Value>,
}

impl Model for Slots {
    ghost use Rattle.std.specs.Prelude.{List};
    ghost use Rattle.values_core.specs.Data.{Val};
    ghost use Rattle.states_core.specs.StateCodes.{values_code};

    ghost Value = { List Val };

    ghost coded = { values_code };

    ghost view = { λ s. s.items.items };
}

impl Slots {
    /// Copies of these values.
    pub fn of(alloc: Global, values: &[&Value]) -> Result<Slots, NoMemory>
        ensures { IfOk result (λ s. s ≡ map (λ v. v.now) values.now) }
    {
        let items = lent_copies(alloc, values)?;
        Ok(Slots { items })
    }

    pub fn values(&self) -> &[Value]
        ensures { result.now ≡ self.now }
    {
        &self.items
    }

    /// The same values.
    pub fn copy(&self, alloc: Global) -> Result<Slots, NoMemory>
        ensures { IfOk result (λ s. s ≡ self.now) }
    {
        let items = copies(alloc, &self.items)?;
        Ok(Slots { items })
    }
}

/// Copies of values that are lent, in their order.
fn lent_copies(alloc: Global, values: &[&Value]) -> Result<Vec<Value>, AllocError>
    ensures { IfOk result (λ all. all.items ≡ map (λ v. v.now) values.now) }
{
    let mut all = Vec::with_capacity(alloc, values.len())?;
    for value in values {
        all.push(value.copy()?)?;
    }
    Ok(all)
}

/// Copies of the values, in their order.
fn copies(alloc: Global, values: &Vec<Value>) -> Result<Vec<Value>, AllocError>
    ensures { IfOk result (λ all. all.items ≡ values.now.items) }
{
    let mut all = Vec::with_capacity(alloc, values.len())?;
    for value in values {
        all.push(value.copy()?)?;
    }
    Ok(all)
}

/// A part that was passed over.
#[derive(Drop)]
pub struct Spared {
    /// Why it does not hold.
    pub why: Why,
    /// The innermost definition in whose body it stands, if it stands in one.
    pub call: Option<DefId>,
    /// The values that are in scope there.
    pub slots: Slots,
    /// The value that a variable should have, where it has another.
    pub wanted: Option<Value>,
}

impl Spared {
    /// The same.
    pub fn copy(&self, alloc: Global) -> Result<Spared, NoMemory>
        ensures { IfOk result (λ s. s ≡ self.now) }
    {
        let slots = self.slots.copy(alloc)?;
        let wanted = same_value(&self.wanted)?;
        Ok(Spared {
            why: self.why,
            call: self.call,
            slots,
            wanted,
        })
    }
}

fn same_value(value: &Option<Value>) -> Result<Option<Value>, AllocError>
    ensures { IfOk result (λ v. v ≡ value.now) }
{
    match value {
        Some(known) => {
            let copied = known.copy()?;
            Ok(Some(copied))
        }
        None => Ok(None),
    }
}
