//! What trees mean, and what is wrong with their names.

ghost use Rattle.std.specs.Prelude.{◌≡◌, [], IfOk, OnOk, Option, None, Some, length};
ghost use Rattle.names_term_parts.specs.Slots.{MentionsBelow, UsesSmaller};
ghost use Rattle.names_scopes.specs.Scopes.{bind};
ghost use Rattle.names_scopes.specs.Standing.{AreIn};
ghost use Rattle.names_meanings.specs.Complaints.{complaint, with_names};
ghost use Rattle.names_meanings.specs.Means.{Means};
ghost use Rattle.names_meanings.specs.Outcomes.{Complains, Grows, Lasts, named_in, takes_of};
ghost use Rattle.names_meanings.specs.declared.fault.NameFault.{NameFault};

use base_core::{Names, NoMemory};
use names_meanings::{NameFault, resolve_tree};
use names_scopes::ProgramNames;
use names_terms::{Operators, Term};
use reading_trees::Expr;
use std::alloc::{AllocError, Global};

/// What is wrong with the names, or want of memory.
fn fault_in(fault: NameFault) -> Result<Option<NameFault>, NoMemory>
    ensures exact { IfOk result (λ o. (c : Option NameFault) → Complains c fault → c ≡ o) }
    ensures some { IfOk result (λ o. o ≡ Some fault) }
{
    match fault {
        NameFault::UnknownName(name, at) => Ok(Some(NameFault::UnknownName(name, at))),
        NameFault::WrongArity(name, found, needed, at) => Ok(Some(NameFault::WrongArity(
            name, found, needed, at,
        ))),
        NameFault::Recursion(name, at) => Ok(Some(NameFault::Recursion(name, at))),
        NameFault::NoMemory => Err(AllocError),
    }
}

/// What is wrong with the names of a tree under parameters, if anything is. The table grows by definitions that nothing asks for.
pub(crate) fn complaint_of(
    alloc: Global,
    names: &ProgramNames,
    params: &Names,
    table: &mut Operators,
    tree: &Expr,
) -> Result<Option<NameFault>, NoMemory>
    requires known { AreIn (length table.old) names.now }
    requires ordered { UsesSmaller table.old }
    ensures exact { IfOk result (λ o. o ≡ complaint (with_names (takes_of table.old names.now) params.now) tree.now) }
    ensures grown { IfOk result (λ o. o ≡ None → Grows table.old table.new) }
    ensures smaller { IfOk result (λ o. o ≡ None → UsesSmaller table.new) }
{
    match resolve_tree(alloc, names, params, table, tree) {
        Ok(term) => {
            drop(term);
            Ok(None)
        }
        Err(fault) => fault_in(fault),
    }
}

/// Want of memory, where nothing is wrong with the names.
fn want_of_memory(fault: NameFault) -> NoMemory
    requires { Complains None fault }
{
    match fault {
        NameFault::UnknownName(_, _) => unreachable!(),
        NameFault::WrongArity(_, _, _, _) => unreachable!(),
        NameFault::Recursion(_, _) => unreachable!(),
        NameFault::NoMemory => AllocError,
    }
}

/// What a tree means, of whose names none is wrong.
pub(crate) fn term_of(
    alloc: Global,
    names: &ProgramNames,
    params: &Names,
    table: &mut Operators,
    tree: &Expr,
) -> Result<Term, NoMemory>
    requires known { AreIn (length table.old) names.now }
    requires ordered { UsesSmaller table.old }
    requires fine { complaint (with_names (takes_of table.old names.now) params.now) tree.now ≡ None }
    ensures grown { OnOk result (Grows table.old table.new) }
    ensures smaller { OnOk result (UsesSmaller table.new) }
    ensures unnamed { OnOk result (named_in table.new ≡ named_in table.old) }
    ensures below { IfOk result (MentionsBelow (length table.new)) }
    ensures means { IfOk result (λ e. Lasts (length table.old) table.new (λ all. Means names.now all (bind [] params.now) tree.now e)) }
{
    match resolve_tree(alloc, names, params, table, tree) {
        Ok(term) => Ok(term),
        Err(fault) => Err(want_of_memory(fault)),
    }
}
