//! Tokens among which the junction lists are marked.

use base_core::Place;
use reading_tokens::Token;

/// The operator that begins each item of a junction list: `/\` or `\/`.
#[derive(Clone, Copy, Debug, Drop, PartialEq, Eq)]
pub enum Bullet {
    And,
    Or,
}

/// A token, or a mark of a junction list.
///
/// Each bullet of a list is a `ListItem` at the bullet's place. A `ListOpen` stands before the first
/// and has its place; a `ListClose` has the place of the token before which the list ends.
#[derive(Drop)]
pub enum Laid {
    Plain(Token),
    ListOpen(Bullet, Place),
    ListItem(Bullet, Place),
    ListClose(Place),
}
