//! One value for a variable.

ghost use Rattle.std.specs.Prelude.{◌≡◌, ◌<◌, ◌↔◌, ◌∷◌, [], IfOk, IsTrue, OnOk, Some, if◌then◌else◌, length, slice_set};
ghost use Rattle.steps_filling.specs.Fillings.{Adds, Allows, Assigns, OneIf, SeenIn};

use logs_updates::{See, seen};
use states_core::{Partial, VarId};
use std::alloc::{AllocError, Global};
use values_core::Value;

/// The places with this value of the variable: themselves where it has the value, none where it has another, and filled further where it has none
/// yet and what is seen of it stands in the value.
pub fn assigned(
    alloc: Global,
    sees: &[See],
    places: Partial,
    number: VarId,
    value: Value,
) -> Result<Vec<Partial>, AllocError>
    requires { number.0 < length places }
    ensures { IfOk result (λ found. Assigns sees.now number.0 value places found.items) }
{
    value.is_value();
    match places.get(number) {
        Some(known) => one_if(alloc, *known == value, places),
        None => filled(alloc, sees, places, number, value),
    }
}

/// The places, where it holds.
pub fn one_if(alloc: Global, holds: bool, places: Partial) -> Result<Vec<Partial>, AllocError>
    ensures { IfOk result (λ found. found.items ≡ (if holds then places ∷ [] else [])) }
{
    if holds {
        return one_place(alloc, places);
    }
    Ok(Vec::new(alloc))
}

/// The places alone.
pub fn one_place(alloc: Global, places: Partial) -> Result<Vec<Partial>, AllocError>
    ensures { IfOk result (λ found. found.items ≡ places ∷ []) }
{
    let mut found = Vec::with_capacity(alloc, 1)?;
    found.push(places)?;
    Ok(found)
}

/// The places with this value of a variable that has none yet, if what is seen of it stands in the value.
fn filled(
    alloc: Global,
    sees: &[See],
    places: Partial,
    number: VarId,
    value: Value,
) -> Result<Vec<Partial>, AllocError>
    requires { number.0 < length places }
    ensures { IfOk result (λ found. OneIf (SeenIn sees.now number.0 value) (slice_set places number.0 (Some value)) found.items) }
{
    if is_seen(sees, number, &value) {
        let mut further = places;
        further.put(number, value)?;
        return one_place(alloc, further);
    }
    Ok(Vec::new(alloc))
}

/// Adds the places with this value of a variable that has none yet, if what is seen of it stands in the value.
pub fn add_filled(
    alloc: Global,
    found: &mut Vec<Partial>,
    sees: &[See],
    places: &Partial,
    number: VarId,
    value: &Value,
) -> Result<(), AllocError>
    requires { number.0 < length places.now }
    ensures { OnOk result (Adds (SeenIn sees.now number.0 value.now) (slice_set places.now number.0 (Some value.now)) found.old.items found.new.items) }
{
    if is_seen(sees, number, value) {
        let further = with_value(alloc, places, number, value)?;
        found.push(further)?;
        return Ok(());
    }
    Ok(())
}

/// The places with this value of the variable.
fn with_value(
    alloc: Global,
    places: &Partial,
    number: VarId,
    value: &Value,
) -> Result<Partial, AllocError>
    requires { number.0 < length places.now }
    ensures { IfOk result (λ further. further ≡ slice_set places.now number.0 (Some value.now)) }
{
    let mut further = places.copy(alloc)?;
    let copied = value.copy()?;
    further.put(number, copied)?;
    Ok(further)
}

/// Whether all that is seen of the variable stands in the value.
fn is_seen(sees: &[See], number: VarId, value: &Value) -> bool
    ensures { IsTrue result ↔ SeenIn sees.now number.0 value.now }
{
    for see in sees {
        if !allows(see, number, value) {
            return false;
        }
    }
    true
}

/// Whether what is seen stands in the value, if it is seen of the variable.
fn allows(see: &See, number: VarId, value: &Value) -> bool
    ensures { IsTrue result ↔ Allows see.now number.0 value.now }
{
    if see.path.variable().0 != number.0 {
        return true;
    }
    seen(see, value)
}
