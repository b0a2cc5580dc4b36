//! What stands for a call of an operator of TLC.

ghost use Rattle.std.specs.Prelude.{◌≡◌, IfOk, true};
ghost use Rattle.reading_trees.specs.Trees.{Case, MoreArms, NoArms, Truth};
ghost use Rattle.names_tlc_calls.specs.Spelled.{with_one, with_two};

use base_core::{NoMemory, Place, Text};
use reading_trees::{Arm, Arms, Expr, Exprs, Node};
use std::alloc::Global;

/// What stands for a call with one argument whose name is no other's.
pub(crate) fn with_one(
    alloc: Global,
    at: Place,
    name: &Text,
    argument: Expr,
) -> Result<Expr, NoMemory>
    ensures { IfOk result (λ e. e ≡ with_one at name.now argument) }
{
    if name.as_str() == "PrintT" {
        drop(argument);
        return Expr::new(alloc, at, Node::Truth(true));
    }
    if name.as_str() == "TLCEval" {
        return Expr::new(alloc, at, Node::Parenthesized(argument));
    }
    let mut arguments = Exprs::new(alloc);
    arguments.push(argument)?;
    Expr::new(alloc, at, Node::Call(name.copy()?, arguments))
}

/// A CASE of one arm, which is true where the test is.
fn asserted(alloc: Global, at: Place, test: Expr) -> Result<Expr, NoMemory>
    ensures { IfOk result (λ e. e ≡ Case at (MoreArms NoArms test (Truth at true))) }
{
    let value = Expr::new(alloc, at, Node::Truth(true))?;
    let mut arms = Arms::new(alloc);
    arms.push(Arm { test, value })?;
    Expr::new(alloc, at, Node::Case(arms, None))
}

/// What stands for a call with two arguments whose name is no other's.
pub(crate) fn with_two(
    alloc: Global,
    at: Place,
    name: &Text,
    first: Expr,
    second: Expr,
) -> Result<Expr, NoMemory>
    ensures { IfOk result (λ e. e ≡ with_two at name.now first second) }
{
    if name.as_str() == "Assert" {
        drop(second);
        return asserted(alloc, at, first);
    }
    if name.as_str() == "Print" {
        drop(first);
        return Expr::new(alloc, at, Node::Parenthesized(second));
    }
    let mut arguments = Exprs::new(alloc);
    arguments.push(first)?;
    arguments.push(second)?;
    Expr::new(alloc, at, Node::Call(name.copy()?, arguments))
}
