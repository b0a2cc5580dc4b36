//! From what a configuration spells to values.

ghost use Rattle.std.specs.Prelude.{IfOk, MatchOption, option_map};
ghost use Rattle.values_core.specs.Data.{Val};
ghost use Rattle.values_core.specs.Sets.{IsSetOf};
ghost use Rattle.reading_trees.specs.Lits.{lits_of};
ghost use Rattle.reading_trees.specs.Literals.{lit_of};
ghost use Rattle.names_literals.specs.Spells.{Finds, IsValueOf, AreValuesOf};

use base_core::NoMemory;
use reading_trees::{Literal, Literals};
use std::alloc::{AllocError, Global};
use values_core::{Value, ValueFault};

/// The set of these values, or none where it is past the limits of values.
fn set_of(values: Vec<Value>) -> Result<Option<Value>, NoMemory>
    ensures { IfOk result (Finds (IsSetOf values.items)) }
{
    Value::laws();
    match Value::make_set(values) {
        Ok(value) => Ok(Some(value)),
        Err(ValueFault::NoMemory) => Err(AllocError),
        Err(ValueFault::KeyTwice) => Ok(None),
        Err(ValueFault::TooLarge) => Ok(None),
        Err(ValueFault::TooDeep) => Ok(None),
    }
}

/// The value that a configuration spells, or none where a set in it is past the limits of values.
///
/// Members of a set that are spelled twice count once.
#[cycle(value)]
pub fn literal_value(alloc: Global, literal: &Literal) -> Result<Option<Value>, NoMemory>
    ensures { IfOk result (Finds (IsValueOf (lit_of literal.now))) }
{
    match literal {
        Literal::Number(number) => Ok(Some(Value::int(*number))),
        Literal::Str(text) => Ok(Some(Value::string(text.copy()?))),
        Literal::Truth(truth) => Ok(Some(Value::boolean(*truth))),
        Literal::Model(name) => Ok(Some(Value::model(name.copy()?))),
        Literal::Set(members) => match member_values(alloc, members)? {
            Some(values) => set_of(values),
            None => Ok(None),
        },
    }
}

/// The values of the members, in their order, or none where one has none.
#[cycle(value)]
fn member_values(alloc: Global, members: &Literals) -> Result<Option<Vec<Value>>, NoMemory>
    ensures { IfOk result (λ o. Finds (AreValuesOf (lits_of members.now)) (option_map (λ vs. vs.items) o)) }
{
    let mut values = Vec::with_capacity(alloc, members.len())?;
    for member in members.items() {
        match literal_value(alloc, member)? {
            Some(value) => values.push(value)?,
            None => return Ok(None),
        }
    }
    Ok(Some(values))
}
