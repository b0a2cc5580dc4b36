//! Lists and boxes that are made.

ghost use Rattle.std.specs.Prelude.{◌≡◌, ◌++◌, ◌∷◌, [], if◌then◌else◌, IfOk, OnOk};
ghost use Rattle.values_core.specs.Data.{string};

use names_terms::Field;
use std::alloc::{AllocError, Global};
use values_core::Value;
use values_sets::Described;

/// Adds an item at the end.
pub fn push<T: Drop>(items: &mut Vec<T>, item: T) -> Result<(), AllocError>
    ensures { OnOk result (items.new.items ≡ items.old.items ++ item ∷ []) }
{
    items.push(item)?;
    Ok(())
}

/// A set in a box.
pub fn boxed(alloc: Global, set: Described) -> Result<Box<Described>, AllocError>
    ensures { IfOk result (λ b. b.value ≡ set) }
{
    Ok(Box::new(alloc, set)?)
}

/// Adds a copy of a value, if it passes.
pub fn push_if(values: &mut Vec<Value>, value: &Value, passes: bool) -> Result<(), AllocError>
    ensures { OnOk result (values.new.items ≡ values.old.items ++ (if passes then value.now ∷ [] else [])) }
{
    if passes {
        let copy = value.copy()?;
        values.push(copy)?;
    }
    Ok(())
}

/// The name of a field as a value, beside the value of the field.
pub fn named_pair(field: &Field, value: Value) -> Result<(Value, Value), AllocError>
    ensures { IfOk result (λ pair. pair ≡ (string field.now.name, value)) }
{
    let name = field.name.copy()?;
    Ok((Value::string(name), value))
}
