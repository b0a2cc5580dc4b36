//! Which trees end with a part that reaches as far right as possible.

ghost use Rattle.std.specs.Prelude.{◌≡◌};
ghost use Rattle.names_scopes.specs.Reaching.{reaches_right};

use reading_trees::{Expr, Node};

/// Whether the last part of the tree may hold any number of trees like it, one behind the other, as a long `ELSE IF`.
pub fn reaches_right(tree: &Expr) -> bool
    ensures { result ≡ reaches_right tree.now }
{
    match &*tree.node {
        Node::Quantified(_, _, _) => true,
        Node::Choose(_, _, _) => true,
        Node::If(_, _, _) => true,
        Node::Let(_, _) => true,
        _ => false,
    }
}
