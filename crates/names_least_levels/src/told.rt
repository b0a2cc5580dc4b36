//! What is told of the names of a program.

use base_core::Text;

/// When a name is above level 0: always, as a variable is; never, as a constant; or where the definition of that index is.
#[derive(Clone, Copy, Debug, Drop, PartialEq, Eq)]
pub enum Told {
    Above,
    Constant,
    OfDefinition(usize),
}

/// A name of the program and when it is above level 0.
#[derive(Drop)]
pub struct NameLevel {
    pub name: Text,
    pub told: Told,
}
