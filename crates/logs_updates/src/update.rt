use crate::path::Path;
use values_core::Value;

/// What becomes of what stands at a path.
#[derive(Drop)]
pub enum Op {
    /// The value stands there.
    Set(Value),
    /// The function there maps the key to the value.
    Put(Value, Value),
    /// The function there loses the key.
    Drop(Value),
    /// The set there gets the value.
    Add(Value),
    /// The set there loses the value.
    Remove(Value),
    /// The sequence there gets the value as its last.
    Append(Value),
}

/// How a variable changes: what stands at the path, by the operation.
#[derive(Drop)]
pub struct Update {
    pub path: Path,
    pub op: Op,
}

/// What holds after a step: the value stands at the path.
#[derive(Drop)]
pub struct See {
    pub path: Path,
    pub value: Value,
}
