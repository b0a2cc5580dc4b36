ghost use Rattle.std.specs.Prelude.{◌≡◌, ◌++◌, IfOk, OnOk};

use crate::keys::{Keys, PathKey};
use crate::line::{Event, Line};
use crate::lists::{Sees, Updates};
use crate::path::Path;
use crate::update::{Op, See, Update};
use crate::values::Values;
use base_core::NoMemory;
use std::alloc::Global;
use values_core::Value;

/// An equal line.
pub fn copy_line(alloc: Global, line: &Line) -> Result<Line, NoMemory>
    ensures { IfOk result (λ copy. copy ≡ line.now) }
{
    let clock = line.clock.copy(alloc)?;
    let event = copy_event(alloc, &line.event)?;
    let updates = copy_updates(alloc, line.updates.items())?;
    let mut sees = Sees::new(alloc);
    add_sees(alloc, &mut sees, line.sees.items())?;
    Ok(Line {
        at: line.at,
        clock,
        event,
        updates,
        sees,
    })
}

/// Adds equal copies at the end.
pub fn add_sees(alloc: Global, sees: &mut Sees, more: &[See]) -> Result<(), NoMemory>
    ensures { OnOk result (sees.new ≡ sees.old ++ more.now) }
{
    for see in more {
        let path = copy_path(alloc, &see.path)?;
        let value = see.value.copy()?;
        sees.push(See { path, value })?;
    }
    Ok(())
}

fn copy_event(alloc: Global, event: &Option<Event>) -> Result<Option<Event>, NoMemory>
    ensures { IfOk result (λ copy. copy ≡ event.now) }
{
    match event {
        Some(event) => {
            let args = copy_values(alloc, event.args.items())?;
            Ok(Some(Event {
                operator: event.operator,
                args,
            }))
        }
        None => Ok(None),
    }
}

fn copy_updates(alloc: Global, updates: &[Update]) -> Result<Updates, NoMemory>
    ensures { IfOk result (λ copy. copy ≡ updates.now) }
{
    let mut copy = Updates::with_capacity(alloc, updates.len())?;
    for update in updates {
        let path = copy_path(alloc, &update.path)?;
        let op = copy_op(&update.op)?;
        copy.push(Update { path, op })?;
    }
    Ok(copy)
}

fn copy_path(alloc: Global, path: &Path) -> Result<Path, NoMemory>
    ensures { IfOk result (λ copy. copy ≡ path.now) }
{
    let keys = copy_keys(alloc, path.keys())?;
    Path::new(alloc, path.variable(), keys)
}

fn copy_op(op: &Op) -> Result<Op, NoMemory>
    ensures { IfOk result (λ copy. copy ≡ op.now) }
{
    match op {
        Op::Set(value) => {
            let value = value.copy()?;
            Ok(Op::Set(value))
        }
        Op::Put(key, value) => {
            let key = key.copy()?;
            let value = value.copy()?;
            Ok(Op::Put(key, value))
        }
        Op::Drop(key) => {
            let key = key.copy()?;
            Ok(Op::Drop(key))
        }
        Op::Add(value) => {
            let value = value.copy()?;
            Ok(Op::Add(value))
        }
        Op::Remove(value) => {
            let value = value.copy()?;
            Ok(Op::Remove(value))
        }
        Op::Append(value) => {
            let value = value.copy()?;
            Ok(Op::Append(value))
        }
    }
}

fn copy_values(alloc: Global, values: &[Value]) -> Result<Values, NoMemory>
    ensures { IfOk result (λ copy. copy ≡ values.now) }
{
    let mut copy = Values::with_capacity(alloc, values.len())?;
    for value in values {
        let equal = value.copy()?;
        copy.push(equal)?;
    }
    Ok(copy)
}

fn copy_keys(alloc: Global, keys: &[PathKey]) -> Result<Keys, NoMemory>
    ensures { IfOk result (λ copy. copy ≡ keys.now) }
{
    let mut copy = Keys::with_capacity(alloc, keys.len())?;
    for key in keys {
        let equal = key.value().copy()?;
        copy.push(equal)?;
    }
    Ok(copy)
}
