ghost use Rattle.std.specs.Prelude.{◌≡◌, ◌∷◌, IfOk, []};
ghost use Rattle.values_core.specs.Data.{integer};

use base_core::NoMemory;
use states_core::{Partial, State, VarId};
use std::alloc::Global;
use values_core::Value;

/// The state of two variables with these integers.
fn state(alloc: Global, a: i64, b: i64) -> Result<State, NoMemory>
    ensures { IfOk result (λ s. s ≡ integer a ∷ integer b ∷ []) }
{
    let mut values = Vec::new(alloc);
    values.push(Value::int(a))?;
    values.push(Value::int(b))?;
    Ok(State::new(values))
}

/// Whether the variables have these integers.
fn has(partial: &Partial, a: i64, b: i64) -> bool {
    match (partial.get(VarId(0)), partial.get(VarId(1))) {
        (Some(x), Some(y)) => x.as_int() == Some(a) && y.as_int() == Some(b),
        _ => false,
    }
}

/// A copy is written, and then what it was made from: each has what was written into it alone.
fn writes_are_apart(alloc: Global) -> Result<bool, NoMemory> {
    let state = state(alloc, 1, 2)?;
    let mut first = Partial::of(alloc, &state)?;
    let mut copy = first.copy(alloc)?;
    let shares = has(&copy, 1, 2);
    copy.put(VarId(0), Value::int(5))?;
    let copy_alone = has(&first, 1, 2) && has(&copy, 5, 2);
    first.put(VarId(1), Value::int(7))?;
    Ok(shares && copy_alone && has(&first, 1, 7) && has(&copy, 5, 2))
}

/// What was copied goes on when the copy is gone, and is written in place.
fn first_outlives_its_copy(alloc: Global) -> Result<bool, NoMemory> {
    let state = state(alloc, 1, 2)?;
    let mut first = Partial::of(alloc, &state)?;
    drop(first.copy(alloc)?);
    first.put(VarId(0), Value::int(3))?;
    Ok(has(&first, 3, 2))
}

#[test]
fn copies_of_partial_states_are_apart(rt: HostRuntime) {
    let alloc = rt.alloc();
    assert!(rt; writes_are_apart(alloc) == Ok(true));
    assert!(rt; first_outlives_its_copy(alloc) == Ok(true));
}
