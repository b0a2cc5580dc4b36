//! Rows that wait for the copy of their last part.

ghost use Rattle.std.specs.Prelude.{◌≡◌, IfOk};
ghost use Rattle.names_terms.specs.TermViews.{node_view};
ghost use Rattle.names_term_copies.specs.Rows.{closed, closed_all, meaning_with};

use base_core::{NoMemory, Place};
use names_terms::{Bounds, DefIds, Level, Term, TermNode};
use reading_trees::Quantifier;
use std::alloc::Global;

/// A copied row whose last part may hold any number of rows like it, without that part.
#[derive(Drop)]
pub enum Opening {
    If(Term, Term),
    Quantified(Quantifier, Bounds),
    Choose(Term),
    Scoped(DefIds),
}

/// Such a row with its place and its level.
#[derive(Drop)]
pub struct Row {
    pub at: Place,
    pub level: Level,
    pub opening: Opening,
}

/// A node as far as it is copied.
#[derive(Drop)]
pub enum Begun<'a> {
    Whole(TermNode),
    /// The last part is not copied yet.
    Open(Opening, &'a Term),
}

/// The node of a row with this last part.
fn node_with(opening: Opening, last: Term) -> TermNode
    ensures { node_view result ≡ meaning_with opening last }
{
    match opening {
        Opening::If(test, then) => TermNode::If(test, then, last),
        Opening::Quantified(quantifier, bounds) => TermNode::Quantified(quantifier, bounds, last),
        Opening::Choose(set) => TermNode::Choose(set, last),
        Opening::Scoped(definitions) => TermNode::Scoped(definitions, last),
    }
}

/// The term of a row with this last part.
fn closed(alloc: Global, row: Row, last: Term) -> Result<Term, NoMemory>
    ensures { IfOk result (λ t. t ≡ closed row last) }
{
    let Row { at, level, opening } = row;
    let node = node_with(opening, last);
    Term::new(alloc, at, level, node)
}

/// The term of rows, each of which is the last part of the one before, with this last part.
pub fn closed_all(alloc: Global, rows: Vec<Row>, last: Term) -> Result<Term, NoMemory>
    ensures { IfOk result (λ t. t ≡ closed_all rows.items last) }
{
    let mut rows = rows;
    let mut term = last;
    while let Some(row) = rows.pop() {
        term = closed(alloc, row, term)?;
    }
    Ok(term)
}
