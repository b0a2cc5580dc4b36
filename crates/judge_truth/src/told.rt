use states_core::Fault;

/// What is told of an action at two states: that it holds or that it does not, and has no fault either way; or a fault that it has.
#[derive(Clone, Copy, Debug, Drop, PartialEq, Eq)]
pub enum Told {
    Holds,
    HoldsNot,
    Faults(Fault),
}
