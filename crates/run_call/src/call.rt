ghost use Rattle.std.specs.Prelude.{◌≡◌, ◌≢◌, ◌⊎◌, ◌≤◌};
ghost use Rattle.base_core.specs.Device.{Rose};
ghost use Rattle.run_words.specs.Line.{words_of};
ghost use Rattle.run_call.specs.Codes.{code_of};
ghost use Rattle.run_call.specs.Run.{HasFailed, HoldsPart, HoldsReport, NamesFailure};

use crate::judge::judge;
use base_core::{Files, Sink};
use run_stages::Stop;
use run_texts::device_text;
use std::alloc::Global;

/// How a call ended.
#[derive(Clone, Copy, Debug, Drop, PartialEq, Eq)]
pub enum Status {
    /// The log is explained, or the given states are valid.
    Done,
    /// The log is not explained, no state can be the first, or the given states are not valid.
    Not,
    /// The words are of no form.
    Words,
    /// A file was refused, missing or too long.
    Reading,
    /// An evaluation faults, or an assumption is FALSE.
    Evaluation,
    /// A limit of layers was passed.
    Limit,
    /// A call on the files or on the sink failed.
    Device,
    /// Want of memory.
    Memory,
}

impl Status {
    /// The exit status of the program, from 0 to 7.
    pub fn code(&self) -> u8
        ensures { result ≡ code_of self.now }
    {
        *self as u8
    }
}

/// Does what the words say, and writes the report.
///
/// Want of memory may come at any time; then, and where the sink fails, a first part of the report may have been written.
pub fn run<F: Files, S: Sink>(alloc: Global, words: &[String], files: &mut F, out: &mut S) -> Status
    ensures report { result ≢ Status.Device → result ≢ Status.Memory
        → HoldsReport (words_of words.now) (F.holds files.old) (F.faults files.old) (F.faults files.new) result (S.written out.old) (S.written out.new) }
    ensures part { HoldsPart (words_of words.now) (F.holds files.old) (F.faults files.old) (F.faults files.new) (S.written out.old) (S.written out.new) }
    ensures device { result ≡ Status.Device → HasFailed (words_of words.now) (F.holds files.old) (F.faults files.old) (F.faults files.new)
        (S.faults out.old) (S.faults out.new) (S.written out.old) (S.written out.new) }
    ensures named { result ≡ Status.Device → Rose (S.faults out.old) (S.faults out.new)
        ⊎ NamesFailure (words_of words.now) (F.holds files.old) (F.failures files.old) (F.failures files.new) (S.written out.old) (S.written out.new) }
    ensures quiet { result ≢ Status.Device → result ≢ Status.Memory
        → (F.failures files.new ≡ F.failures files.old) × (S.faults out.new ≡ S.faults out.old) }
    ensures same { F.holds files.new ≡ F.holds files.old }
    ensures files_later { F.faults files.old ≤ F.faults files.new }
    ensures out_later { S.faults out.old ≤ S.faults out.new }
{
    match judge(alloc, words, files) {
        Ok(judged) => match out.put(judged.report.as_bytes()) {
            Ok(()) => judged.status,
            Err(_) => Status::Device,
        },
        Err(stop) => match stop {
            Stop::Refused(report) => match out.put(report.as_bytes()) {
                Ok(()) => Status::Reading,
                Err(_) => Status::Device,
            },
            Stop::Device(name) => match device_text(alloc, name.as_str()) {
                Ok(line) => {
                    let _ = out.put(line.as_bytes());
                    Status::Device
                }
                Err(_) => Status::Memory,
            },
            Stop::NoMemory => Status::Memory,
        },
    }
}
