//! Why there is no program.

ghost use Rattle.std.specs.Prelude.{◌≡◌};
ghost use Rattle.reading_modules.specs.FaultCodes.{load_code};
ghost use Rattle.reading_modules.specs.declared.fault.LoadFault.TheVariants as loads;
ghost use Rattle.reading_modules.specs.declared.fault.Stop.TheVariants as stops;

use base_core::{Names, Place, ReadFault, Text};
use reading_expressions::ParseFault;
use reading_tokens::LexKind;
use std::alloc::{AllocError, AllocFailed};
use thiserror::Error;

/// Why a program was refused. A place counts its file in the list of files that goes with the refusal.
#[derive(Debug, Drop, Error)]
pub enum LoadWhy {
    /// The file of this name was not read.
    #[error("{}: {}", .0.as_str(), .1)]
    Read(Text, ReadFault),
    /// The text of a module has no tokens.
    #[error("{} at {}", self.code(), .1)]
    Lex(LexKind, Place),
    /// The token of this place stands left of a junction list that it is to stand in.
    #[error("{} at {}", self.code(), .0)]
    Lay(Place),
    /// The tokens are no module.
    #[error("{0}")]
    Parse(ParseFault),
    /// A module extends itself, directly or through others: the names from it to itself.
    #[error("{}", self.code())]
    Cycle(Names),
    /// A module of this name would be the 33rd.
    #[error("{} {}", self.code(), .0.as_str())]
    TooMany(Text),
    /// A name is declared here, and was declared before at the other place, or belongs to a standard module that is
    /// extended.
    #[error("{} {} at {}", self.code(), .0.as_str(), .1)]
    Twice(Text, Place, Option<Place>),
    /// The heading of the module has this name, which is not that of its file.
    #[error("{} {} at {}", self.code(), .0.as_str(), .1)]
    WrongName(Text, Place),
    /// A module that is read for an instance has an instance itself, of this name at this place, which is its first.
    #[error("{} {} at {}", self.code(), .0.as_str(), .1)]
    Nested(Text, Place),
}

impl LoadWhy {
    /// The code and the name of the refusal.
    pub fn code(&self) -> &'static str
        ensures { result.now ≡ load_code self.now }
    {
        match self {
            LoadWhy::Read(_, _) => "",
            LoadWhy::Lex(kind, _) => kind.code(),
            LoadWhy::Lay(_) => "J1 LeftOfList",
            LoadWhy::Parse(fault) => fault.code(),
            LoadWhy::Cycle(_) => "M5 Cycle",
            LoadWhy::TooMany(_) => "M6 TooManyModules",
            LoadWhy::Twice(_, _, _) => "M7 Twice",
            LoadWhy::WrongName(_, _) => "M8 WrongName",
            LoadWhy::Nested(_, _) => "M9 Nested",
        }
    }
}

/// Why there is no program.
#[derive(Debug, Drop, Error)]
pub enum LoadFault {
    /// With the files so far, the one that is refused being the last.
    #[error("{1}")]
    Refused(Names, LoadWhy),
    #[error("out of memory")]
    NoMemory,
}

impl From<AllocError> for LoadFault {
    ghost from_gives = { λ _ e. e ≡ loads.NoMemory };

    fn from(_e: AllocError) -> LoadFault {
        LoadFault::NoMemory
    }
}

/// Why modules are not read on.
#[derive(Debug, Drop, Error)]
pub enum Stop {
    #[error("{0}")]
    Refused(LoadWhy),
    #[error("out of memory")]
    NoMemory,
}

impl From<AllocError> for Stop {
    ghost from_gives = { λ _ e. e ≡ stops.NoMemory };

    fn from(_e: AllocError) -> Stop {
        Stop::NoMemory
    }
}

impl<T: Drop> From<AllocFailed<T>> for Stop {
    ghost from_gives = { λ _ e. e ≡ stops.NoMemory };

    fn from(_e: AllocFailed<T>) -> Stop {
        Stop::NoMemory
    }
}
