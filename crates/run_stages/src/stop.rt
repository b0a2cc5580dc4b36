ghost use Rattle.std.specs.Prelude.{◌≡◌, IfOk};
ghost use Rattle.run_stages.specs.declared.stop.Stop.TheVariants as stops;
ghost use Rattle.run_stages.specs.Stops.{IsUnreadBy};

use base_core::{NoMemory, ReadFault, Text};
use run_texts::{missing_text, too_long_text};
use std::alloc::{AllocError, AllocFailed, Global};
use thiserror::Error;

/// Why not all texts of a job are accepted.
#[derive(Debug, Drop, Error)]
pub enum Stop {
    /// A file is missing or too long, or a text is refused: the report.
    #[error("{0}")]
    Refused(String),
    /// A read of the file of this name failed.
    #[error("a read of {} failed", .0.as_str())]
    Device(Text),
    #[error("out of memory")]
    NoMemory,
}

impl From<AllocError> for Stop {
    ghost from_gives = { λ _ stop. stop ≡ stops.NoMemory };

    fn from(_: AllocError) -> Self {
        Stop::NoMemory
    }
}

impl<T: Drop> From<AllocFailed<T>> for Stop {
    ghost from_gives = { λ _ stop. stop ≡ stops.NoMemory };

    fn from(_: AllocFailed<T>) -> Self {
        Stop::NoMemory
    }
}

/// The stop at a file of that name that is not read.
pub(crate) fn unread(alloc: Global, fault: ReadFault, name: &Text) -> Result<Stop, NoMemory>
    ensures { IfOk result (IsUnreadBy fault name.now) }
{
    Ok(match fault {
        ReadFault::Missing => Stop::Refused(missing_text(alloc, name.as_str())?),
        ReadFault::TooLong => Stop::Refused(too_long_text(alloc, name.as_str())?),
        ReadFault::Failed => Stop::Device(name.copy()?),
        ReadFault::NoMemory => Stop::NoMemory,
    })
}
