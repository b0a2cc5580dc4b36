ghost use Rattle.std.specs.Prelude.{◌≡◌, ◌++◌, Contains, IfOk, MatchResult, OnOk, [], if◌then◌else◌};
ghost use Rattle.values_core.specs.SetOperations.{
  GivesSet,
  Intersects,
  TakesAway,
  Unites,
  UnitesMembers,
  cardinality_of,
};
ghost use Rattle.values_core.specs.Sets.{IsSet, items_of};
ghost use Rattle.values_core.specs.declared.fault.EvalKind.TheVariants.{NotSet};
ghost use Rattle.values_core.specs.declared.fault.OpFault.TheVariants.{Refused};
ghost use Rattle.values_operations.specs.Walk.{merged, when};

use std::alloc::{AllocError, Global};
use std::cmp::Ordering;
use values_core::{EvalKind, OpFault, Value, ValueKind};

/// Which values of two lists are kept: those in the left one alone, in both, in the right one alone.
#[derive(Clone, Copy, Drop)]
pub(crate) struct Keep {
    pub left: bool,
    pub both: bool,
    pub right: bool,
}

/// `a \cup b`.
pub fn union(alloc: Global, a: &Value, b: &Value) -> Result<Value, OpFault>
    ensures { Unites a.now b.now result }
{
    a.is_value();
    b.is_value();
    expect_set(a, 0)?;
    expect_set(b, 1)?;
    let keep = Keep {
        left: true,
        both: true,
        right: true,
    };
    let xs = a.members();
    let ys = b.members();
    let members = walk(alloc, xs.len().saturating_add(ys.len()), xs, ys, keep)?;
    set_from(members)
}

/// `a \cap b`.
pub fn intersect(alloc: Global, a: &Value, b: &Value) -> Result<Value, OpFault>
    ensures { Intersects a.now b.now result }
{
    a.is_value();
    b.is_value();
    expect_set(a, 0)?;
    expect_set(b, 1)?;
    let keep = Keep {
        left: false,
        both: true,
        right: false,
    };
    let members = walk(alloc, 0, a.members(), b.members(), keep)?;
    set_from(members)
}

/// `a \ b`.
pub fn minus(alloc: Global, a: &Value, b: &Value) -> Result<Value, OpFault>
    ensures { TakesAway a.now b.now result }
{
    a.is_value();
    b.is_value();
    expect_set(a, 0)?;
    expect_set(b, 1)?;
    let keep = Keep {
        left: true,
        both: false,
        right: false,
    };
    let members = walk(alloc, 0, a.members(), b.members(), keep)?;
    set_from(members)
}

/// How many members the set has.
pub fn cardinality(a: &Value) -> Result<Value, OpFault>
    ensures { result ≡ cardinality_of a.now }
{
    a.is_value();
    expect_set(a, 0)?;
    Ok(Value::int(a.members().len() as i64))
}

/// That the operand of this number is a set.
pub(crate) fn expect_set(a: &Value, operand: u8) -> Result<(), OpFault>
    ensures { MatchResult result (λ _. IsSet a.now) (λ e. (e ≡ Refused NotSet operand) × ¬ IsSet a.now) }
{
    match a.kind() {
        ValueKind::Set => Ok(()),
        _ => Err(OpFault::Refused(EvalKind::NotSet, operand)),
    }
}

/// The set of these values.
pub(crate) fn set_from(members: Vec<Value>) -> Result<Value, OpFault>
    ensures { GivesSet (Contains members.items) result }
{
    match Value::make_set(members) {
        Ok(set) => Ok(set),
        Err(fault) => Err(OpFault::from(fault)),
    }
}

/// The values of two ascending lists that are to be kept, in order, in a list that has room for so many from the first.
fn walk(
    alloc: Global,
    room: usize,
    xs: &[Value],
    ys: &[Value],
    keep: Keep,
) -> Result<Vec<Value>, AllocError>
    ensures { IfOk result (λ v. v.items ≡ merged keep xs.now ys.now) }
{
    let mut out = Vec::with_capacity(alloc, room)?;
    let mut i: usize = 0;
    let mut j: usize = 0;
    while i < xs.len() && j < ys.len() {
        match xs[i].cmp(&ys[j]) {
            Ordering::Less => {
                push_if(&mut out, &xs[i], keep.left)?;
                i += 1;
            }
            Ordering::Equal => {
                push_if(&mut out, &xs[i], keep.both)?;
                i += 1;
                j += 1;
            }
            Ordering::Greater => {
                push_if(&mut out, &ys[j], keep.right)?;
                j += 1;
            }
        }
    }
    push_rest(&mut out, &xs[i..], keep.left)?;
    push_rest(&mut out, &ys[j..], keep.right)?;
    Ok(out)
}

fn push_rest(out: &mut Vec<Value>, values: &[Value], keep: bool) -> Result<(), AllocError>
    ensures { OnOk result (out.new.items ≡ out.old.items ++ (if keep then values.now else [])) }
{
    if keep {
        push_all(out, values)?;
    }
    Ok(())
}

pub(crate) fn push_if(out: &mut Vec<Value>, v: &Value, keep: bool) -> Result<(), AllocError>
    ensures { OnOk result (out.new.items ≡ out.old.items ++ when keep v.now []) }
{
    if keep {
        let copy = v.copy()?;
        out.push(copy)?;
    }
    Ok(())
}

/// Adds a copy of each value.
pub(crate) fn push_all(out: &mut Vec<Value>, values: &[Value]) -> Result<(), AllocError>
    ensures { OnOk result (out.new.items ≡ out.old.items ++ values.now) }
{
    for v in values {
        let copy = v.copy()?;
        out.push(copy)?;
    }
    Ok(())
}
