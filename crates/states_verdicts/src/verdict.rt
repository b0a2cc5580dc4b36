use base_core::Place;
use states_core::EvalKind;

/// Why a state is not clean, in the order in which the reasons are tested.
#[derive(Clone, Copy, Debug, Drop, PartialEq, Eq)]
pub enum Reason {
    /// There are no states.
    NoState,
    /// The first state is not marked as one, a later state is, or a silent state stands behind the last line.
    WrongMark,
    /// The initial predicate does not hold of it.
    NotInit,
    /// There are more silent states before one line than are allowed.
    TooManySilent,
    /// The line that it names is not the next one, or no line is left.
    WrongLine,
    /// No step that no line shows leads to it.
    NotSilent,
    /// The line's updates do not lead to it, or its event's operator or the next-state action does not.
    NotStep,
    /// It does not agree with what the log shows.
    NotSeen,
    /// The states end before the lines.
    LinesLeft,
}

/// What is found of a list of marked states: it is a behaviour of all lines, or one state is the first that is not clean.
/// `index` counts the states from 0, and is their number where the reason is `LinesLeft`.
#[derive(Clone, Copy, Debug, Drop, PartialEq, Eq)]
pub enum Verdict {
    Valid,
    Invalid {
        index: u32,
        reason: Reason,
    },
    /// An evaluation at the state, or from the one before it to this one, faults.
    Fault {
        index: u32,
        kind: EvalKind,
        at: Place,
    },
}
