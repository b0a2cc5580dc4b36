//! What can be open at a token.

use crate::laid::Bullet;

/// A construct other than CASE, from the token that opens it to the one that finishes it.
#[derive(Clone, Copy, Debug, Drop, PartialEq, Eq)]
pub enum Construct {
    /// `(` to `)`
    Parentheses,
    /// `[` to `]` or `]_`
    Brackets,
    /// `{` to `}`
    Braces,
    /// `<<` to `>>` or `>>_`
    Tuple,
    /// `IF` to `ELSE`
    If,
    /// `LET` to `IN`
    Let,
    /// `\A`, `\E` or `CHOOSE` to `:`
    Binder,
}

/// What is open at a token: a junction list of a bullet and a column, or a construct.
///
/// A CASE has no token that finishes it, so it stands apart: it ends with what is around it.
#[derive(Clone, Copy, Debug, Drop, PartialEq, Eq)]
pub enum Open {
    List(Bullet, u32),
    Case,
    Inside(Construct),
}
