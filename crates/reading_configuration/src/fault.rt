//! Why a text is no configuration.

ghost use Rattle.std.specs.Prelude.{◌≡◌};
ghost use Rattle.reading_configuration.specs.FaultCodes.{config_code};
ghost use Rattle.reading_configuration.specs.declared.fault.ConfigFault.TheVariants.{NoMemory};
ghost use Rattle.reading_configuration.specs.declared.fault.ConfigKind.TheVariants.{Syntax};
ghost use Rattle.reading_configuration.specs.declared.fault.Stop.TheVariants as stops;

use base_core::{Place, Text};
use std::alloc::AllocError;
use thiserror::Error;

/// What a text that is no configuration has.
#[derive(Debug, Drop, Error)]
pub enum ConfigKind {
    /// What no statement of this project's profile goes on with, or what is no token.
    #[error("{}", self.code())]
    Syntax,
    /// A statement of TLC that is outside this project's profile, by its keyword.
    #[error("{} {}", self.code(), .0.as_str())]
    Unsupported(Text),
    /// A second INIT, NEXT or SPECIFICATION, by this word, or a second assignment of one name, by
    /// the name.
    #[error("{} {}", self.code(), .0.as_str())]
    Twice(Text),
    /// The end, where the text has neither SPECIFICATION alone nor INIT and NEXT without it.
    #[error("{}", self.code())]
    NoBehaviour,
}

impl ConfigKind {
    /// The code and the name of the refusal.
    pub fn code(&self) -> &'static str
        ensures { result.now ≡ config_code self.now }
    {
        match self {
            ConfigKind::Syntax => "G1 Syntax",
            ConfigKind::Unsupported(_) => "G2 Unsupported",
            ConfigKind::Twice(_) => "G3 Twice",
            ConfigKind::NoBehaviour => "G4 NoBehaviour",
        }
    }
}

/// Why a text is no configuration, and where; or memory was wanting.
#[derive(Debug, Drop, Error)]
pub enum ConfigFault {
    #[error("{0} at {1}")]
    Refused(ConfigKind, Place),
    #[error("out of memory")]
    NoMemory,
}

impl From<AllocError> for ConfigFault {
    ghost from_gives = { λ _ e. e ≡ NoMemory };

    fn from(_e: AllocError) -> ConfigFault {
        ConfigFault::NoMemory
    }
}

/// Why reading stops at a mark.
#[derive(Debug, Drop)]
pub(crate) enum Stop {
    Refused(ConfigKind),
    NoMemory,
}

impl From<AllocError> for Stop {
    ghost from_gives = { λ _ e. e ≡ stops.NoMemory };

    fn from(_e: AllocError) -> Stop {
        Stop::NoMemory
    }
}

/// What no statement goes on with.
pub(crate) fn syntax() -> Stop
    ensures { result ≡ stops.Refused Syntax }
{
    Stop::Refused(ConfigKind::Syntax)
}
