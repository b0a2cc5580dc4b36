//! What comes of one laid token.

use base_core::Place;
use reading_machine::Mode;
use reading_trees::{Definition, Expr};

/// What comes of a laid token.
#[derive(Drop)]
pub enum Stepped {
    /// It is read, and this is expected behind it.
    Reads(Mode),
    /// It can not follow what was read.
    Stops,
    /// Its operator's range meets that of an earlier one: the places of both.
    Clashes(Place, Place),
    /// The expression ended before it.
    Ends(Expr),
    /// The definition of a unit ended before it.
    EndsDefinition(Definition),
}

/// A name and `\in` before an expression, or the place of the operator that they meet.
#[derive(Drop)]
pub enum Joined {
    Joins(Expr),
    Meets(Place),
}
