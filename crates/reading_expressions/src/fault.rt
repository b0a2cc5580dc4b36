//! Why laid tokens are no expression, definition or module.

ghost use Rattle.std.specs.Prelude.{◌≡◌};
ghost use Rattle.reading_expressions.specs.FaultCodes.{parse_code};

use base_core::Place;
use reading_tokens::Foreign;
use std::alloc::AllocError;
use thiserror::Error;

/// Why laid tokens are no expression, definition or module.
#[derive(Debug, Drop, Error)]
pub enum ParseFault {
    /// The tokens before this place begin a text of the grammar, and with the one here they do not.
    #[error("{} at {}", self.code(), .0)]
    Expected(Place),
    /// Two operators of which neither may have the other's term as its operand, in text order.
    #[error("{} at {} and {}", self.code(), .0, .1)]
    Conflict(Place, Place),
    /// The token here stands inside more than 100 unfinished constructs.
    #[error("{} at {}", self.code(), .0)]
    TooNested(Place),
    /// As `Expected`, at a token of TLA+ that is outside this project's profile, or at the end of junction lists before one.
    #[error("{} at {}", self.code(), .1)]
    OutOfProfile(Foreign, Place),
    #[error("out of memory")]
    NoMemory,
}

impl ParseFault {
    /// The code and the name of the refusal.
    pub fn code(&self) -> &'static str
        ensures { result.now ≡ parse_code self.now }
    {
        match self {
            ParseFault::Expected(_) => "P1 Expected",
            ParseFault::Conflict(_, _) => "P2 Conflict",
            ParseFault::TooNested(_) => "P3 TooNested",
            ParseFault::OutOfProfile(_, _) => "P4 OutOfProfile",
            ParseFault::NoMemory => "",
        }
    }
}

impl From<AllocError> for ParseFault {
    ghost use Rattle.std.specs.Prelude.{◌≡◌};
    ghost use Rattle.reading_expressions.specs.declared.fault.ParseFault.TheVariants.{NoMemory};

    ghost from_gives = { λ _ e. e ≡ NoMemory };

    fn from(_e: AllocError) -> ParseFault {
        ParseFault::NoMemory
    }
}
