use crate::calls::compared;
use crate::forms::{Form, made, tuple};
use crate::outcomes::Told;
use logs_updates::{Op, Path, Update, apply};
use states_core::VarId;
use std::alloc::Global;
use values_core::{EvalKind, OpFault, Value};

/// What an update does to a copy.
#[derive(Clone, Copy, Drop)]
pub enum Change {
    Set,
    Put,
    Drop,
    Add,
    Remove,
    Append,
}

/// A row: its name, the value that it begins with, and what is done to a copy.
pub struct Row(pub &'static str, pub Form, pub Change);

pub const ROWS: [Row; 7] = [
    Row("update by set", Form::Sequence, Change::Set),
    Row("update by put in a sequence", Form::Sequence, Change::Put),
    Row("update by put in pairs", Form::Pairs, Change::Put),
    Row("update by drop", Form::Sequence, Change::Drop),
    Row("update by add", Form::Set, Change::Add),
    Row("update by remove", Form::Set, Change::Remove),
    Row("update by append", Form::Sequence, Change::Append),
];

/// What comes of the row.
pub fn outcome(alloc: Global, form: Form, change: Change) -> Told {
    run(alloc, form, change).unwrap_or(Told::NoMemory)
}

fn run(alloc: Global, form: Form, change: Change) -> Result<Told, OpFault> {
    let value = made(alloc, form)?;
    let twin = made(alloc, form)?;
    let copy = value.copy()?;
    let update = Update {
        path: Path::whole(VarId(0)),
        op: op(alloc, change, &value)?,
    };
    let changed = updated(alloc, &update, &copy);
    drop(update);
    let is_kept = value.same(&twin) && copy.same(&twin);
    drop(copy);
    Ok(compared(changed, &value, &twin, is_kept))
}

fn op(alloc: Global, change: Change, value: &Value) -> Result<Op, OpFault> {
    Ok(match change {
        Change::Set => Op::Set(tuple(alloc, 7)?),
        Change::Put => Op::Put(Value::int(2), value.copy()?),
        Change::Drop => Op::Drop(Value::int(2)),
        Change::Add => Op::Add(value.copy()?),
        Change::Remove => Op::Remove(tuple(alloc, 1)?),
        Change::Append => Op::Append(value.copy()?),
    })
}

fn updated(alloc: Global, update: &Update, value: &Value) -> Result<Value, OpFault> {
    match apply(alloc, update, value)? {
        Some(changed) => Ok(changed),
        None => Err(OpFault::Refused(EvalKind::NotFunction, 0)),
    }
}
