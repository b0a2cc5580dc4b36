use base_core::{NoMemory, Place, Text};
use thiserror::Error;

/// Why a tree means nothing: the first of its names, in the order of the text, that means nothing or has another number of arguments than it
/// takes, or the first definition of a LET that uses itself.
#[derive(Debug, Drop, Error)]
pub enum NameFault {
    #[error("no meaning of {} at {}", .0.as_str(), .1)]
    UnknownName(Text, Place),
    /// A name, how many arguments it has there, and how many it takes.
    #[error("{1} arguments of {2} at {3}")]
    WrongArity(Text, usize, usize, Place),
    /// A definition that uses itself, at its name.
    #[error("{} uses itself at {}", .0.as_str(), .1)]
    Recursion(Text, Place),
    #[error("out of memory")]
    NoMemory,
}

impl From<NoMemory> for NameFault {
    ghost use Rattle.std.specs.Prelude.{◌≡◌};
    ghost use Rattle.names_meanings.specs.declared.fault.NameFault.TheVariants.{NoMemory as Wanting};

    ghost from_gives = { λ _ e. e ≡ Wanting };

    fn from(_e: NoMemory) -> NameFault {
        NameFault::NoMemory
    }
}
