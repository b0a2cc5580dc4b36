//! What a tree means among the names of a program.

ghost use Rattle.std.specs.Prelude.{◌≡◌, [], IfOk, IfErr, OnOk, length};
ghost use Rattle.names_term_parts.specs.Slots.{MentionsBelow, UsesSmaller};
ghost use Rattle.names_meanings.specs.Around.{takes};
ghost use Rattle.names_meanings.specs.Complaints.{complaint, with_names};
ghost use Rattle.names_meanings.specs.Means.{Means};
ghost use Rattle.names_meanings.specs.Outcomes.{Complains, Grows, Lasts, named_in, takes_of};
ghost use Rattle.names_scopes.specs.Standing.{AreIn};
ghost use Rattle.names_meanings.specs.Reads.{ResolvesBody};
ghost use Rattle.names_scopes.specs.Scopes.{bind};

use crate::fault::NameFault;
use crate::resolve::resolve_to;
use crate::walk::Walk;
use base_core::{Names, NoMemory};
use names_scopes::ProgramNames;
use names_terms::{Operators, Term};
use reading_trees::Expr;
use std::alloc::Global;
use std::mem::replace;

/// What a tree means under parameters, with nothing else bound.
fn resolve_in(
    alloc: Global,
    walk: &mut Walk<'_>,
    params: &Names,
    tree: &Expr,
) -> Result<Term, NameFault>
    ensures fine { IfOk result (λ e. ResolvesBody walk.old walk.new params.now tree.now e) }
    ensures refused { IfErr result (Complains (complaint (with_names (takes walk.old) params.now) tree.now)) }
{
    walk.bind(params.items())?;
    resolve_to(alloc, walk, 0, tree)
}

/// What a tree means under parameters, over a table of definitions that grows by those of its LETs, or the first name of it that means nothing.
/// The term uses the definitions of the table alone. Where each of these used those of smaller numbers alone, it goes on to.
/// On a refusal nothing is said of the table.
pub fn resolve_tree(
    alloc: Global,
    names: &ProgramNames,
    params: &Names,
    table: &mut Operators,
    tree: &Expr,
) -> Result<Term, NameFault>
    requires known { AreIn (length table.old) names.now }
    ensures smaller { OnOk result (UsesSmaller table.old → UsesSmaller table.new) }
    ensures below { IfOk result (MentionsBelow (length table.new)) }
    ensures unnamed { OnOk result (named_in table.new ≡ named_in table.old) }
    ensures grown { OnOk result (Grows table.old table.new) }
    ensures means { IfOk result (λ e. Lasts (length table.old) table.new (λ all. Means names.now all (bind [] params.now) tree.now e)) }
    ensures fine { OnOk result (complaint (with_names (takes_of table.old names.now) params.now) tree.now ≡ None) }
    ensures refused { IfErr result (Complains (complaint (with_names (takes_of table.old names.now) params.now) tree.now)) }
{
    let before = replace(table, Operators::new(alloc));
    let mut walk = Walk::new(alloc, names, before);
    let outcome = resolve_in(alloc, &mut walk, params, tree);
    *table = walk.into_table();
    outcome
}
