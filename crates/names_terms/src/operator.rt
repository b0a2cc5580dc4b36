use crate::level::Level;
use crate::term::Term;
use base_core::Text;

/// How a definition uses itself, directly or through others: it does not; it does; or it does and is a function that its body applies.
#[derive(Clone, Copy, Debug, Drop, PartialEq, Eq)]
pub enum Own {
    Apart,
    Itself,
    Function,
}

/// A definition: its name, which is empty for one of a LET; how many slots are in scope around it, which a use hands on; how many
/// parameters it has; its level; how it uses itself; and its body, whose first slots are those handed on and then the parameters.
#[derive(Drop)]
pub struct Operator {
    pub name: Text,
    pub outer: usize,
    pub params: usize,
    pub level: Level,
    pub own: Own,
    pub body: Term,
}
