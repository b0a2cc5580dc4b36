use base_core::{LineAt, Place};
use states_core::{Behaviour, EvalKind, State};
use std::alloc::AllocError;

/// What a log says of a specification.
#[derive(Drop)]
pub enum Answer {
    /// The behaviour explains all lines. `widest` is the size of the largest layer.
    Explained {
        behaviour: Behaviour,
        widest: u32,
    },
    /// The behaviour explains the first `prefix` of the `of` lines, and none explains one more.
    /// `after` is the line that comes next.
    NotExplained {
        prefix: u32,
        of: u32,
        after: LineAt,
        behaviour: Behaviour,
    },
    /// No state can be the first.
    NoInitial,
    /// The initial predicate faults.
    InitFault {
        kind: EvalKind,
        at: Place,
    },
    /// A step from the state, which is reached after that many lines and then silent steps, faults.
    Fault {
        after: u32,
        silent: u32,
        state: State,
        kind: EvalKind,
        at: Place,
    },
    /// An assumption faults, and all before it are TRUE.
    AssumeFault {
        kind: EvalKind,
        at: Place,
    },
    /// An assumption, whose term stands at the place, is FALSE, and all before it are TRUE.
    AssumeFalse {
        at: Place,
    },
    /// The layer after that many lines and then silent steps is too large.
    LayerLimit {
        after: u32,
        silent: u32,
    },
    /// The layers up to that one are together too large.
    TotalLimit {
        after: u32,
        silent: u32,
    },
}

/// Why the search stops before its end.
#[derive(Drop)]
pub enum Stop {
    Answered(Answer),
    NoMemory,
}

impl From<AllocError> for Stop {
    ghost use Rattle.std.specs.Prelude.{◌≡◌};
    ghost use Rattle.states_layers.specs.declared.answer.Stop.TheVariants.{NoMemory};

    ghost from_gives = { λ error stop. stop ≡ NoMemory };

    fn from(_error: AllocError) -> Stop {
        Stop::NoMemory
    }
}
