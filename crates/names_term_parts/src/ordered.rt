//! Whether definitions use those of smaller numbers alone.

ghost use Rattle.std.specs.Prelude.{◌≡◌, ◌↔◌, ◌<◌, ℕ, Contains, IfOk, IsTrue};
ghost use Rattle.names_terms.specs.declared.level.Level.TheVariants.{Constant};
ghost use Rattle.names_terms.specs.TermViews.{node_view};
ghost use Rattle.names_terms.specs.Terms.{level_of};
ghost use Rattle.names_term_parts.specs.Slots.{IsInOrder, MentionsBelow, UsesSmaller};
ghost use Rattle.names_term_parts.specs.Special.{IsOwnBelow};

use crate::pending::{push, push_parts};
use crate::special::{Special, special_of};
use base_core::NoMemory;
use names_terms::{DefIds, Level, Operator, Own, Term, TermNode};
use std::alloc::Global;

fn are_below(count: usize, numbers: &DefIds) -> bool
    ensures { IsTrue result ↔ ((k : ℕ) → Contains numbers.now k → k < count) }
{
    for index in 0..numbers.len() {
        match numbers.get(index) {
            Some(number) => {
                if number.0 >= count {
                    return false;
                }
            }
            None => return true,
        }
    }
    true
}

fn is_own_below(count: usize, node: &TermNode) -> bool
    ensures { IsTrue result ↔ IsOwnBelow count (node_view node.now) }
{
    match special_of(node) {
        Special::Use(number, _) => number < count,
        Special::Let(numbers) => are_below(count, numbers),
        Special::Slot(_) => true,
        Special::Other => true,
    }
}

/// Whether a text uses the definitions below a number alone.
pub fn mentions_below(alloc: Global, count: usize, term: &Term) -> Result<bool, NoMemory>
    ensures { IfOk result (λ b. IsTrue b ↔ MentionsBelow count term.now) }
{
    let mut stack = Vec::new(alloc);
    push(&mut stack, false, term)?;
    while let Some(pending) = stack.pop() {
        let part = pending.term;
        let node = &*part.node;
        if !is_own_below(count, node) {
            return Ok(false);
        }
        push_parts(&mut stack, false, node)?;
    }
    Ok(true)
}

/// Whether a body is constant, and uses the definitions below a number alone.
fn is_recursive(alloc: Global, count: usize, body: &Term) -> Result<bool, NoMemory>
    ensures { IfOk result (λ b. IsTrue b ↔ ((level_of body.now ≡ Constant) × MentionsBelow count body.now)) }
{
    match body.level {
        Level::Constant => mentions_below(alloc, count, body),
        Level::State | Level::Action | Level::Temporal => Ok(false),
    }
}

/// Whether the definition of a number, of so many, stands in order.
fn is_in_order(
    alloc: Global,
    count: usize,
    number: usize,
    operator: &Operator,
) -> Result<bool, NoMemory>
    ensures { IfOk result (λ b. IsTrue b ↔ IsInOrder count number operator.now.own operator.now.body) }
{
    match operator.own {
        Own::Apart => mentions_below(alloc, number, &operator.body),
        Own::Itself => is_recursive(alloc, count, &operator.body),
        Own::Function => is_recursive(alloc, count, &operator.body),
    }
}

/// Whether each definition of a table that does not use itself uses those of smaller numbers alone.
pub fn uses_smaller(alloc: Global, table: &[Operator]) -> Result<bool, NoMemory>
    ensures { IfOk result (λ b. IsTrue b ↔ UsesSmaller table.now) }
{
    let count = table.len();
    for (number, operator) in table.iter().enumerate() {
        if !is_in_order(alloc, count, number, operator)? {
            return Ok(false);
        }
    }
    Ok(true)
}
