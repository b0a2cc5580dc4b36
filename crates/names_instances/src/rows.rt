//! Rows that wait for their last part.

ghost use Rattle.std.specs.Prelude.{◌≡◌, IfOk};
ghost use Rattle.reading_trees.specs.TreeViews.{node_view};
ghost use Rattle.names_instances.specs.Rows.{closed, closed_all, tree_with};

use base_core::{NoMemory, Place, Text};
use reading_trees::{Bounds, Definitions, Expr, Node, Quantifier};
use std::alloc::Global;

/// A made row whose last part may hold any number of rows like it, without that part.
#[derive(Drop)]
pub(crate) enum Opening {
    If(Expr, Expr),
    Quantified(Quantifier, Bounds),
    Choose(Text, Expr),
    Let(Definitions),
}

/// Such a row with its place.
#[derive(Drop)]
pub(crate) struct Row {
    pub at: Place,
    pub opening: Opening,
}

/// The node of a row with this last part.
fn node_with(opening: Opening, last: Expr) -> Node
    ensures { (at : Place) → node_view at result ≡ tree_with at opening last }
{
    match opening {
        Opening::If(test, then) => Node::If(test, then, last),
        Opening::Quantified(quantifier, bounds) => Node::Quantified(quantifier, bounds, last),
        Opening::Choose(name, set) => Node::Choose(name, set, last),
        Opening::Let(definitions) => Node::Let(definitions, last),
    }
}

/// The tree of a row with this last part.
fn closed(alloc: Global, row: Row, last: Expr) -> Result<Expr, NoMemory>
    ensures { IfOk result (λ e. e ≡ closed row last) }
{
    let Row { at, opening } = row;
    let node = node_with(opening, last);
    Expr::new(alloc, at, node)
}

/// The tree of rows, each of which is the last part of the one before, with this last part.
pub(crate) fn closed_all(alloc: Global, rows: Vec<Row>, last: Expr) -> Result<Expr, NoMemory>
    ensures { IfOk result (λ e. e ≡ closed_all rows.items last) }
{
    let mut rows = rows;
    let mut tree = last;
    while let Some(row) = rows.pop() {
        tree = closed(alloc, row, tree)?;
    }
    Ok(tree)
}
