/// A variable, by its number from 0 in the order of declaration.
#[derive(Clone, Copy, Debug, Drop, PartialEq, Eq, PartialOrd, Ord)]
pub struct VarId(pub u16);
