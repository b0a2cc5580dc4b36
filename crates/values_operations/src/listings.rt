ghost use Rattle.std.specs.Prelude.{◌≡◌, ◌≤ℤ◌, ◌+ℤ◌, pos, Contains, IfOk, MatchBool, MatchOption};
ghost use Rattle.values_core.specs.Data.{Val};
ghost use Rattle.values_core.specs.SetOperations.{GivesSet, InInterval, ListsInterval, UnitesMembers};
ghost use Rattle.values_core.specs.Sets.{IsSet};
ghost use Rattle.values_operations.specs.Listed.{ints_from, members_of_all};

use crate::THE_TERM;
use crate::integers::operands;
use crate::sets::{expect_set, push_all, set_from};
use std::alloc::{AllocError, Global};
use values_core::{EvalKind, OpFault, Value, ValueKind};

/// `a..b`, empty where `a` is above `b`.
pub fn interval(alloc: Global, a: &Value, b: &Value) -> Result<Value, OpFault>
    ensures { ListsInterval a.now b.now result }
{
    let (first, last) = operands(a, b)?;
    between(alloc, first, last)
}

/// `UNION a`.
pub fn big_union(alloc: Global, a: &Value) -> Result<Value, OpFault>
    ensures { UnitesMembers a.now result }
{
    expect_set(a, 0)?;
    if !are_sets(a.members()) {
        return Err(OpFault::Refused(EvalKind::NotSet, 0));
    }
    let all = all_members(alloc, a.members())?;
    set_from(all)
}

fn between(alloc: Global, first: i64, last: i64) -> Result<Value, OpFault>
    ensures { GivesSet (InInterval first last) result }
{
    if first > last {
        return set_from(Vec::new(alloc));
    }
    let Some(count) = count_between(first, last) else {
        return Err(OpFault::Refused(EvalKind::TooLarge, THE_TERM));
    };
    let members = integers(alloc, first, count)?;
    set_from(members)
}

/// How many integers there are from the first to the last, unless they are more than a set may have.
fn count_between(first: i64, last: i64) -> Option<u32>
    requires { first ≤ℤ last }
    ensures { MatchOption result ((first +ℤ pos 100000) ≤ℤ last) (λ n. first +ℤ pos n ≡ last +ℤ pos 1) }
{
    match last.checked_sub(first) {
        Some(more) if more < 100_000 => Some(more as u32 + 1),
        _ => None,
    }
}

/// So many integers from the first on.
pub(crate) fn integers(alloc: Global, first: i64, count: u32) -> Result<Vec<Value>, AllocError>
    requires { (first +ℤ pos count) ≤ℤ pos 9223372036854775808 }
    ensures { IfOk result (λ v. v.items ≡ ints_from first count) }
{
    let mut members = Vec::new(alloc);
    for k in 0..count {
        members.push(Value::int(first + i64::from(k)))?;
    }
    Ok(members)
}

fn are_sets(values: &[Value]) -> bool
    ensures { MatchBool result ((v : Val) → Contains values.now v → IsSet v) ((v : Val) × Contains values.now v × ¬ IsSet v) }
{
    for v in values {
        match v.kind() {
            ValueKind::Set => {}
            _ => return false,
        }
    }
    true
}

/// A copy of the members of all these sets, one set after another.
fn all_members(alloc: Global, sets: &[Value]) -> Result<Vec<Value>, AllocError>
    ensures { IfOk result (λ v. v.items ≡ members_of_all sets.now) }
{
    let mut all = Vec::new(alloc);
    for set in sets {
        push_all(&mut all, set.members())?;
    }
    Ok(all)
}
