ghost use Rattle.std.specs.Prelude.{◌≡◌, ◌≤◌, None, vec_len, IfOk, IsErrOf};
ghost use Rattle.base_core.specs.Device.{Rose, Lacks, IsWhole, IsLonger};
ghost use Rattle.base_core.specs.Failures.{after_read};

use crate::device::{Files, OpenFault};
use crate::text::Text;
use std::alloc::Global;
use thiserror::Error;

/// How many bytes are asked for at a time.
const ROOM: usize = 16_384;

/// Why a file was not read.
#[derive(Clone, Copy, Debug, Drop, PartialEq, Eq, Error)]
pub enum ReadFault {
    /// There is no file of that name.
    #[error("no such file")]
    Missing,
    /// It was not opened, or a read failed.
    #[error("the device failed")]
    Failed,
    /// It has more bytes than the limit.
    #[error("the file is too long")]
    TooLong,
    /// Want of memory.
    #[error("out of memory")]
    NoMemory,
}

/// All bytes of the named file, of which there are at most `limit`. After a refusal some file may
/// be open, but for `Missing`.
pub fn read_file<F: Files>(
    alloc: Global,
    files: &mut F,
    name: &Text,
    limit: usize,
) -> Result<Vec<u8>, ReadFault>
    ensures whole { IfOk result (λ v. IsWhole name.now (F.holds files.old) v.items) }
    ensures within { IfOk result (λ v. vec_len v ≤ limit) }
    ensures too_long { IsErrOf result ReadFault.TooLong → IsLonger name.now (F.holds files.old) limit }
    ensures missing { IsErrOf result ReadFault.Missing → Lacks name.now (F.holds files.old) (F.faults files.old) (F.faults files.new) }
    ensures failed { IsErrOf result ReadFault.Failed → Rose (F.faults files.old) (F.faults files.new) }
    ensures closed { IsErrOf result ReadFault.Missing → F.at files.new ≡ None }
    ensures told { F.failures files.new ≡ after_read name.now result (F.failures files.old) }
    ensures same { F.holds files.new ≡ F.holds files.old }
    ensures later { F.faults files.old ≤ F.faults files.new }
{
    let Ok(asked) = name.copy() else {
        return Err(ReadFault::NoMemory);
    };
    if let Err(fault) = files.open(asked) {
        return Err(match fault {
            OpenFault::Missing => ReadFault::Missing,
            OpenFault::Failed => ReadFault::Failed,
            OpenFault::NoMemory => ReadFault::NoMemory,
        });
    }
    let mut bytes = Vec::new(alloc);
    let mut room = [0u8; ROOM];
    loop {
        let Ok(count) = files.next(&mut room) else {
            return Err(ReadFault::Failed);
        };
        if count == 0 {
            return Ok(bytes);
        }
        if count > limit - bytes.len() {
            return Err(ReadFault::TooLong);
        }
        if bytes.extend_from_slice(&room[..count]).is_err() {
            return Err(ReadFault::NoMemory);
        }
    }
}
