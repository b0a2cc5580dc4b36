ghost use Rattle.std.specs.Prelude.{◌≡◌, ◌≤◌, IfOk, IfErr, OnOk};
ghost use Rattle.run_reading_defs.specs.Texts.{HasText};
ghost use Rattle.run_reading_defs.specs.Reaches.{Wants};
ghost use Rattle.run_stages.specs.Stops.{IsToldBy, StopsBy};

use crate::stop::{Stop, unread};
use base_core::{Files, Text, read_file};
use run_words::Job;
use std::alloc::Global;

/// The bytes of the file that is read next.
pub(crate) fn read_wanted<F: Files>(
    alloc: Global,
    job: &Job,
    files: &mut F,
    name: &Text,
    limit: usize,
) -> Result<Vec<u8>, Stop>
    requires { Wants (F.holds files.now) job.now name.now limit }
    ensures text { IfOk result (λ text. HasText (F.holds files.old) name.now limit text.items) }
    ensures stopped { IfErr result (StopsBy (F.holds files.old) (F.faults files.old) (F.faults files.new) job.now) }
    ensures quiet { OnOk result (F.failures files.new ≡ F.failures files.old) }
    ensures told { IfErr result (IsToldBy (F.failures files.old) (F.failures files.new)) }
    ensures same { F.holds files.new ≡ F.holds files.old }
    ensures later { F.faults files.old ≤ F.faults files.new }
{
    match read_file(alloc, files, name, limit) {
        Ok(text) => Ok(text),
        Err(fault) => Err(unread(alloc, fault, name)?),
    }
}
