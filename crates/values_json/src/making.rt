ghost use Rattle.std.specs.Prelude.{IfOk};
ghost use Rattle.values_core.specs.Functions.{fields_as_pairs};
ghost use Rattle.values_core.specs.Sets.{IsSetOf};
ghost use Rattle.values_json.specs.Reads.{Finds, IsMappingOf, IsSequenceOf};

use base_core::Text;
use std::alloc::{AllocError, Global};
use values_core::{Value, ValueFault};

/// The set of these values, or none where it is past the limits.
pub fn make_set(values: Vec<Value>) -> Result<Option<Value>, AllocError>
    ensures { IfOk result (Finds (IsSetOf values.items)) }
{
    Value::laws();
    match Value::make_set(values) {
        Ok(value) => Ok(Some(value)),
        Err(ValueFault::NoMemory) => Err(AllocError),
        Err(ValueFault::KeyTwice) => Ok(None),
        Err(ValueFault::TooLarge) => Ok(None),
        Err(ValueFault::TooDeep) => Ok(None),
    }
}

/// The sequence of these values, or none where it is past the limits.
pub fn make_sequence(alloc: Global, values: Vec<Value>) -> Result<Option<Value>, AllocError>
    ensures { IfOk result (Finds (IsSequenceOf values.items)) }
{
    match Value::sequence(alloc, values) {
        Ok(value) => Ok(Some(value)),
        Err(ValueFault::NoMemory) => Err(AllocError),
        Err(ValueFault::KeyTwice) => Ok(None),
        Err(ValueFault::TooLarge) => Ok(None),
        Err(ValueFault::TooDeep) => Ok(None),
    }
}

/// The function with these pairs, or none where a key comes twice or it is past the limits.
pub fn make_mapping(alloc: Global, pairs: Vec<(Value, Value)>) -> Result<Option<Value>, AllocError>
    ensures { IfOk result (Finds (IsMappingOf pairs.items)) }
{
    match Value::make_function(alloc, pairs) {
        Ok(value) => Ok(Some(value)),
        Err(ValueFault::NoMemory) => Err(AllocError),
        Err(ValueFault::KeyTwice) => Ok(None), // also where both pairs are equal
        Err(ValueFault::TooLarge) => Ok(None),
        Err(ValueFault::TooDeep) => Ok(None),
    }
}

/// The record with these fields, or none where a name comes twice or it is past the limits.
pub fn make_record(alloc: Global, fields: Vec<(Text, Value)>) -> Result<Option<Value>, AllocError>
    ensures { IfOk result (Finds (IsMappingOf (fields_as_pairs fields.items))) }
{
    match Value::record(alloc, fields) {
        Ok(value) => Ok(Some(value)),
        Err(ValueFault::NoMemory) => Err(AllocError),
        Err(ValueFault::KeyTwice) => Ok(None),
        Err(ValueFault::TooLarge) => Ok(None),
        Err(ValueFault::TooDeep) => Ok(None),
    }
}
