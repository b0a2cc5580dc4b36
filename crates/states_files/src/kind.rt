ghost use Rattle.std.specs.Prelude.{◌≡◌};
ghost use Rattle.states_files.specs.FaultCodes.{state_code};

use base_core::Text;
use states_core::Shown;
use thiserror::Error;

/// Why a line of a file of states is refused, in the order in which it is tested.
#[derive(Debug, Drop, Error)]
#[error("{}", self.code())]
pub enum StateKind {
    NotJson,
    /// The first key at which the line is not as it should be.
    #[error("{} {}", self.code(), .0.as_str())]
    BadField(Text),
    UnknownVariable,
    MissingVariable,
    BadValue,
}

impl StateKind {
    /// The code and the name of the refusal.
    pub fn code(&self) -> &'static str
        ensures { result.now ≡ state_code self.now }
    {
        match self {
            StateKind::NotJson => "X1 NotJson",
            StateKind::BadField(_) => "X2 BadField",
            StateKind::UnknownVariable => "X3 UnknownVariable",
            StateKind::MissingVariable => "X4 MissingVariable",
            StateKind::BadValue => "X5 BadValue",
        }
    }
}

/// What comes of a line.
#[derive(Drop)]
pub(crate) enum StateLine {
    Skipped,
    State(Shown),
    Refused(StateKind),
}
