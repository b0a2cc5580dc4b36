use base_core::Text;
use names_terms::{DefId, NamedSet, StandardOperator};
use states_core::VarId;
use values_core::Value;

/// What a name means. Only a name that is bound around a place means a slot.
#[derive(Drop)]
pub enum Meant {
    Slot(usize),
    Variable(VarId),
    /// What the configuration gives for a constant.
    Known(Value),
    Set(NamedSet),
    Standard(StandardOperator),
    Definition(DefId),
}

/// How many arguments a name takes, and what it means.
#[derive(Drop)]
pub struct Named {
    pub needed: usize,
    pub meant: Meant,
}

/// A name of the program.
#[derive(Drop)]
pub struct Entry {
    pub name: Text,
    pub is: Named,
}
