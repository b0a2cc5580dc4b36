//! The marking of junction lists, in one pass.

ghost use Rattle.std.specs.Prelude.{◌≡◌, true, false, ◌&&◌, is_some, OnOk};
ghost use Rattle.reading_trees.specs.Opens.{bullet_of, is_left, is_item};
ghost use Rattle.reading_trees.specs.Laid.{bullet_token, Stands, EndsOnce};
ghost use Rattle.reading_junctions.specs.Lays.{Lays};
ghost use Rattle.reading_junctions.specs.Steps.{Ends, Marks};

use crate::fault::LayFault;
use crate::kinds::{bullet_of, wants_operand};
use crate::stack::Stack;
use base_core::Place;
use reading_tokens::Token;
use reading_trees::{Bullet, Laid};
use std::alloc::{AllocError, Global};

/// What is marked so far.
#[derive(Drop)]
struct Marking {
    laid: Vec<Laid>,
    stack: Stack,
    /// Whether an operand is expected next.
    operand: bool,
}

impl Marking {
    /// Marks the ends of the lists that end before a token.
    fn end_lists(&mut self, token: &Token) -> Result<(), AllocError>
        requires { is_left token.now.place.col self.old.stack ≡ false }
        ensures { OnOk result (Ends self.old self.new token.now) }
    {
        while self.stack.ends_before(self.operand, token) {
            self.stack.end_list();
            self.laid.push(Laid::ListClose(token.place))?;
            self.operand = false;
        }
        Ok(())
    }

    /// Marks the next bullet of the innermost list.
    fn mark_item(&mut self, bullet: Bullet, place: Place) -> Result<(), AllocError>
        requires stands { Stands self.old.operand (bullet_token bullet place) self.old.stack }
        requires item { is_item (bullet_token bullet place) self.old.stack ≡ true }
        ensures { OnOk result (Marks self.old self.new (bullet_token bullet place)) }
    {
        self.stack.end_cases();
        self.laid.push(Laid::ListItem(bullet, place))?;
        self.operand = true;
        Ok(())
    }

    /// Marks the first bullet of a list.
    fn mark_first(&mut self, bullet: Bullet, place: Place) -> Result<(), AllocError>
        requires stands { Stands self.old.operand (bullet_token bullet place) self.old.stack }
        requires no_item { is_item (bullet_token bullet place) self.old.stack ≡ false }
        requires operand { self.old.operand ≡ true }
        ensures { OnOk result (Marks self.old self.new (bullet_token bullet place)) }
    {
        self.stack.open_list(bullet, place.col)?;
        self.laid.push(Laid::ListOpen(bullet, place))?;
        self.laid.push(Laid::ListItem(bullet, place))?;
        Ok(())
    }

    /// Takes over a token that is no bullet.
    fn mark_plain(&mut self, token: Token) -> Result<(), AllocError>
        requires stands { Stands self.old.operand token self.old.stack }
        requires no_item { is_item token self.old.stack ≡ false }
        requires no_first { (is_some (bullet_of token.kind) && self.old.operand) ≡ false }
        ensures { OnOk result (Marks self.old self.new token) }
    {
        self.stack.pass(self.operand, &token.kind)?;
        self.operand = wants_operand(&token.kind);
        self.laid.push(Laid::Plain(token))?;
        Ok(())
    }

    /// Marks a token, before which no list ends.
    fn mark(&mut self, token: Token) -> Result<(), AllocError>
        requires { Stands self.old.operand token self.old.stack }
        ensures { OnOk result (Marks self.old self.new token) }
    {
        if let Some(bullet) = bullet_of(&token.kind) {
            if self.stack.is_item(&token) {
                return self.mark_item(bullet, token.place);
            }
            if self.operand {
                return self.mark_first(bullet, token.place);
            }
        }
        self.mark_plain(token)
    }
}

/// Marks the junction lists of tokens.
///
/// A list begins at a `/\` or `\/` where an operand is expected, and ends before the first token at or
/// left of its column that is not its next bullet, before a closing token of what is open around it,
/// or at the end. The time is linear in the number of tokens.
pub fn lay(alloc: Global, tokens: Vec<Token>) -> Result<Vec<Laid>, LayFault>
    requires { EndsOnce tokens.items }
    ensures { Lays result tokens.items }
{
    let mut marking = Marking {
        laid: Vec::new(alloc),
        stack: Stack::new(alloc),
        operand: true,
    };
    for token in tokens {
        if marking.stack.is_left(token.place.col) {
            return Err(LayFault::LeftOfList(token.place));
        }
        marking.end_lists(&token)?;
        marking.mark(token)?;
    }
    Ok(marking.laid)
}
