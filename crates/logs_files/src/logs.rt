ghost use Rattle.std.specs.Prelude.{◌≡◌, ◌≤◌, ◌<◌, All, IfOk, length};
ghost use Rattle.logs_files.specs.Logs.{LogsSay, LogsSayWithin, are_several, texts_of};

use crate::files::read_files;
use crate::placing::log_of;
use base_core::NoMemory;
use base_core::limits::MAX_STEPS;
use logs_lines::{Refusal, SpecNames, line_laws};
use logs_updates::Log;
use std::alloc::Global;
use thiserror::Error;

/// Which file is refused, from 1, and why.
#[derive(Debug, Drop, Error)]
#[error("{refusal} of log {file}")]
pub struct LogRefusal {
    pub file: u32,
    pub refusal: Refusal,
}

/// The log of all files, given the bytes of each, or the first refusal.
pub fn read_logs<N: SpecNames>(
    alloc: Global,
    names: &N,
    texts: &[Vec<u8>],
) -> Result<Result<Log, LogRefusal>, NoMemory>
    requires few { length texts.now ≤ 64 }
    requires short { All (λ text. length text.items < 67108865) texts.now }
    ensures { IfOk result (LogsSay (N.setting names.now) (texts_of texts.now)) }
{
    read_within(alloc, names, MAX_STEPS, texts)
}

/// The same for files that may have so many steps together.
pub(crate) fn read_within<N: SpecNames>(
    alloc: Global,
    names: &N,
    room: u32,
    texts: &[Vec<u8>],
) -> Result<Result<Log, LogRefusal>, NoMemory>
    requires few { length texts.now ≤ 64 }
    requires short { All (λ text. length text.items < 67108865) texts.now }
    ensures { IfOk result (LogsSayWithin room (N.setting names.now) (texts_of texts.now)) }
{
    line_laws(names);
    let read = read_files(alloc, names, are_several(texts), room, texts)?;
    match read {
        Ok(files) => {
            let log = log_of(alloc, files)?;
            Ok(Ok(log))
        }
        Err(refusal) => Ok(Err(refusal)),
    }
}

fn are_several(texts: &[Vec<u8>]) -> bool
    ensures { result ≡ are_several (texts_of texts.now) }
{
    texts.len() > 1
}
