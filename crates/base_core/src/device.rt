ghost use Rattle.std.specs.Prelude.{◌≡◌, ◌≤◌, List, ℕ, Option, None, Some, length, IfOk, OnOk, OnErr, IsErrOf};
ghost use Rattle.base_core.specs.Device.{File, Rose, Opens, Lacks, Takes, Appended, AppendedPart};
ghost use Rattle.base_core.specs.Failures.{Failures, after_next, after_open};

use crate::text::Text;
use thiserror::Error;

/// A read or a write that failed.
#[derive(Clone, Copy, Debug, Drop, PartialEq, Eq, Error)]
#[error("the device failed")]
pub struct Failed;

/// Why a file was not opened.
#[derive(Clone, Copy, Debug, Drop, PartialEq, Eq, Error)]
pub enum OpenFault {
    /// There is no file of that name.
    #[error("no such file")]
    Missing,
    /// The file was not opened, for another cause.
    #[error("the file was not opened")]
    Failed,
    /// Want of memory, as the host tells.
    #[error("out of memory")]
    NoMemory,
}

/// Files that are read by name, one at a time.
pub trait Files {
    /// The files, where they tell.
    ghost holds: { Self → Option (List File) };

    /// What is left of the open file, where one is open and the files tell.
    ghost at: { Self → Option (List ℕ) };

    /// A count of faults, which never falls.
    ghost faults: { Self → ℕ };

    /// The file that was asked for last, if one was.
    ghost asked: { Self → Option (List ℕ) };

    /// How many calls of `open` and `next` failed, and which file was asked for at the last of them.
    ghost failures: { Self → Failures };

    /// Makes the named file the open one, with all its bytes left. After a refusal no file is open.
    fn open(&mut self, name: Text) -> Result<(), OpenFault>
        ensures same { holds self.new ≡ holds self.old }
        ensures opened { OnOk result (Opens name (holds self.old) (at self.new)) }
        ensures missing { IsErrOf result OpenFault.Missing → Lacks name (holds self.old) (faults self.old) (faults self.new) }
        ensures failed { IsErrOf result OpenFault.Failed → Rose (faults self.old) (faults self.new) }
        ensures closed { OnErr result (at self.new ≡ None) }
        ensures asked { asked self.new ≡ Some name }
        ensures told { failures self.new ≡ after_open name result (failures self.old) }
        ensures later { faults self.old ≤ faults self.new };

    /// Writes the next bytes of the open file into the front of the room and answers how many. At a
    /// room that is not empty, 0 is the end of the file, or no file is open.
    fn next(&mut self, room: &mut [u8]) -> Result<usize, Failed>
        ensures same { holds self.new ≡ holds self.old }
        ensures bound { IfOk result (λ n. n ≤ length room.new) }
        ensures taken { IfOk result (λ n. Takes (holds self.old) (at self.old) n room.new (at self.new)) }
        ensures kept { OnErr result (at self.new ≡ at self.old) }
        ensures failed { OnErr result (Rose (faults self.old) (faults self.new)) }
        ensures asked { asked self.new ≡ asked self.old }
        ensures told { failures self.new ≡ after_next (asked self.old) result (failures self.old) }
        ensures later { faults self.old ≤ faults self.new };

    /// The count of faults so far.
    fn faults(&self) -> u64
        ensures { result ≡ faults self.now };
}

/// What is written to.
pub trait Sink {
    /// The bytes that it holds, where it tells.
    ghost written: { Self → Option (List ℕ) };

    /// A count of faults, which never falls.
    ghost faults: { Self → ℕ };

    /// Appends the whole piece, or a first part of it and fails.
    fn put(&mut self, piece: &[u8]) -> Result<(), Failed>
        ensures appended { OnOk result (Appended (written self.old) piece.now (written self.new)) }
        ensures part { OnErr result (AppendedPart (written self.old) piece.now (written self.new)) }
        ensures quiet { OnOk result (faults self.new ≡ faults self.old) }
        ensures failed { OnErr result (Rose (faults self.old) (faults self.new)) }
        ensures later { faults self.old ≤ faults self.new };

    /// The count of faults so far.
    fn faults(&self) -> u64
        ensures { result ≡ faults self.now };
}
