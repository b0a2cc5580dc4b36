//! Which units are to be passed over.

ghost use Rattle.std.specs.Prelude.{◌≡◌, ◌↔◌, ◌<◌, ◌-◌, ◌^◌, ℕ, IfOk, IsTrue};
ghost use Rattle.std.specs.List.{list_any};
ghost use Rattle.names_scopes.specs.Scopes.{among};
ghost use Rattle.names_uses.specs.UsedNames.{number_in, number_of};
ghost use Rattle.names_pruning.specs.Parts.{AreGone, HasBadName, IsOver, is_bad_name, is_bad_operator, is_set_at};
ghost use Rattle.names_pruning.specs.Pruning.{behind};

use crate::lost::is_lost;
use base_core::{NoMemory, Text};
use names_free::free_names;
use names_scopes::{Meant, ProgramNames};
use reading_trees::{DeclaredOperator, Expr, Unit, Units};
use std::alloc::Global;

/// The index of the definition that is meant.
fn number_of(meant: &Meant) -> Option<usize>
    ensures { result ≡ number_of meant.now }
{
    match meant {
        Meant::Definition(number) => Some(number.0),
        Meant::Slot(_) => None,
        Meant::Variable(_) => None,
        Meant::Known(_) => None,
        Meant::Set(_) => None,
        Meant::Standard(_) => None,
    }
}

/// The index of the definition that the name means.
fn definition_of(names: &ProgramNames, name: &Text) -> Option<usize>
    ensures { result ≡ number_in (among names.now name.now) }
{
    match names.get(name) {
        Some(entry) => number_of(&entry.is.meant),
        None => None,
    }
}

/// Whether there is an index, and true stands there.
pub(crate) fn is_set_at(flags: &[bool], index: Option<usize>) -> bool
    ensures { result ≡ is_set_at flags.now index }
{
    match index {
        Some(index) => match flags.get(index) {
            Some(flag) => *flag,
            None => false,
        },
        None => false,
    }
}

/// Whether the name is lost, or means a definition that is bad.
fn is_bad_name(names: &ProgramNames, unread: &[Text], bad: &[bool], name: &Text) -> bool
    ensures { result ≡ is_bad_name names.now unread.now bad.now name.now }
{
    is_lost(names, unread, name) || is_set_at(bad, definition_of(names, name))
}

/// Whether one of the names is lost, or means a definition that is bad.
fn some_bad(names: &ProgramNames, unread: &[Text], bad: &[bool], free: &[Text]) -> bool
    ensures { result ≡ list_any (is_bad_name names.now unread.now bad.now) free.now }
{
    for name in free {
        if is_bad_name(names, unread, bad, name) {
            return true;
        }
    }
    false
}

/// Whether what is assumed has a lost name, or uses a definition that is bad.
fn is_bad_assumption(
    alloc: Global,
    names: &ProgramNames,
    unread: &[Text],
    bad: &[bool],
    tree: &Expr,
) -> Result<bool, NoMemory>
    ensures { IfOk result (λ b. IsTrue b ↔ HasBadName names.now unread.now bad.now tree.now) }
{
    let free = free_names(alloc, tree)?;
    Ok(some_bad(names, unread, bad, free.items()))
}

/// Whether one of the declared operators has a name that is lost, or that means a definition that is bad.
fn declares_bad(
    names: &ProgramNames,
    unread: &[Text],
    bad: &[bool],
    operators: &[DeclaredOperator],
) -> bool
    ensures { result ≡ list_any (is_bad_operator names.now unread.now bad.now) operators.now }
{
    for operator in operators {
        if is_bad_name(names, unread, bad, &operator.name) {
            return true;
        }
    }
    false
}

/// Whether the unit is to be passed over, where a definition would have this index.
fn is_over(
    alloc: Global,
    names: &ProgramNames,
    unread: &[Text],
    bad: &[bool],
    index: usize,
    unit: &Unit,
) -> Result<bool, NoMemory>
    ensures { IfOk result (λ b. IsTrue b ↔ IsOver names.now unread.now bad.now index unit.now) }
{
    match unit {
        Unit::Variables(_) => Ok(false),
        Unit::Constants(_) => Ok(false),
        Unit::Define(_) => Ok(is_set_at(bad, Some(index))),
        Unit::Assume(tree) => is_bad_assumption(alloc, names, unread, bad, tree),
        Unit::Recursive(operators) => { Ok(declares_bad(names, unread, bad, operators.items())) }
        Unit::Instance(_) => Ok(false),
        Unit::Passed => Ok(false),
    }
}

/// The index of a definition behind the unit.
fn behind(index: usize, unit: &Unit) -> usize
    requires { index < 2 ^ 64 - 1 }
    ensures { result ≡ behind index unit.now }
{
    match unit {
        Unit::Define(_) => index + 1,
        Unit::Variables(_) => index,
        Unit::Constants(_) => index,
        Unit::Assume(_) => index,
        Unit::Recursive(_) => index,
        Unit::Instance(_) => index,
        Unit::Passed => index,
    }
}

/// For each unit whether it is to be passed over.
pub(crate) fn are_over(
    alloc: Global,
    names: &ProgramNames,
    unread: &[Text],
    bad: &[bool],
    units: &Units,
) -> Result<Vec<bool>, NoMemory>
    ensures { IfOk result (λ over. AreGone (IsOver names.now unread.now bad.now) 0 units.now over.items) }
{
    let mut over = Vec::new(alloc);
    let mut index = 0;
    for unit in units.items() {
        let is_over = is_over(alloc, names, unread, bad, index, unit)?;
        over.push(is_over)?;
        index = behind(index, unit);
    }
    Ok(over)
}
