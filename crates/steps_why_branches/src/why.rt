use crate::sparing::Spared;
use base_core::Place;
use states_core::{EvalKind, Partial, VarId};

/// Why a branch ends.
#[derive(Clone, Copy, Drop)]
pub enum WhyKind {
    /// A test is false.
    TestFalse,
    /// The variable has another value.
    Differs(VarId),
    /// The variable has a value that is no member.
    NotIn(VarId),
    /// There is nothing to choose from, or what must change stays the same.
    NoMember,
    /// An evaluation faults.
    Fault(EvalKind),
    /// Updates of the variable have no result.
    NoUpdate(VarId),
    /// All was gone through, and what is seen of the variable does not stand there.
    NotSeen(VarId),
}

/// Why a branch ends, and where.
#[derive(Clone, Copy, Drop)]
pub struct Why {
    /// The part, or the term that faults, where there is one.
    pub at: Option<Place>,
    pub reason: WhyKind,
}

/// How a branch ends: it is gone through, with what is filled then and the first part that was passed over, if any was; or it ends for a reason.
#[derive(Drop)]
pub enum Ended {
    /// All was gone through.
    Passed(Partial, Option<Spared>),
    /// It ends in a part.
    Ends(Why),
}
