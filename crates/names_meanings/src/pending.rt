//! Rows of terms that wait for their last part.

ghost use Rattle.std.specs.Prelude.{◌≡◌, [], ◌∷◌, ◌++◌, IfOk, OnOk};
ghost use Rattle.names_terms.specs.TermViews.{node_view};
ghost use Rattle.names_terms.specs.Levels.{level_for};
ghost use Rattle.names_terms.specs.Terms.{Placed};
ghost use Rattle.names_meanings.specs.Pendings.{meaning_with, closed, closed_all};

use base_core::{NoMemory, Place};
use names_scopes::level_for;
use names_terms::{Bounds, DefIds, Operators, Term, TermNode};
use reading_trees::Quantifier;
use std::alloc::Global;

/// A row whose last part reaches as far right as possible, with its place and the parts before it.
#[derive(Drop)]
pub enum Pending {
    If(Place, Term, Term),
    Quantified(Place, Quantifier, Bounds),
    Choose(Place, Term),
    Scoped(Place, DefIds),
}

/// Adds a row behind the others.
pub fn add_row(rows: &mut Vec<Pending>, row: Pending) -> Result<(), NoMemory>
    ensures { OnOk result (rows.new.items ≡ rows.old.items ++ row ∷ []) }
{
    rows.push(row)?;
    Ok(())
}

/// The term of this meaning at a place.
fn placed(alloc: Global, at: Place, node: TermNode) -> Result<Term, NoMemory>
    ensures { IfOk result (λ e. e ≡ Placed at (level_for [] (node_view node)) (node_view node)) }
{
    let level = level_for(&Operators::new(alloc), &node);
    Term::new(alloc, at, level, node)
}

/// The term of a row with this last part.
fn closed(alloc: Global, row: Pending, last: Term) -> Result<Term, NoMemory>
    ensures { IfOk result (λ e. e ≡ closed row last) }
{
    match row {
        Pending::If(at, test, then) => placed(alloc, at, TermNode::If(test, then, last)),
        Pending::Quantified(at, quantifier, bounds) => {
            placed(alloc, at, TermNode::Quantified(quantifier, bounds, last))
        }
        Pending::Choose(at, set) => placed(alloc, at, TermNode::Choose(set, last)),
        Pending::Scoped(at, numbers) => placed(alloc, at, TermNode::Scoped(numbers, last)),
    }
}

/// The term of rows, each of which is the last part of the one before, with this last part.
pub fn closed_all(alloc: Global, rows: Vec<Pending>, last: Term) -> Result<Term, NoMemory>
    ensures { IfOk result (λ e. e ≡ closed_all rows.items last) }
{
    let mut rows = rows;
    let mut term = last;
    while let Some(row) = rows.pop() {
        term = closed(alloc, row, term)?;
    }
    Ok(term)
}
