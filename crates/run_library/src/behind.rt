//! Files, and the modules of the library behind them.

ghost use Rattle.std.specs.Prelude.{◌≡◌, ◌≤◌, length, drop, None, Some, MatchOption};
ghost use Rattle.run_library.specs.Served.{served};
ghost use Rattle.base_core.specs.Device.{TakesNext};

use crate::paths::text_in;
use base_core::{Failed, Files, OpenFault, Text};

/// Files, and behind them the modules of the library in a folder, where there is one. A file of one's own is found first.
#[derive(Drop)]
pub struct WithLibrary<F: Files + Drop> {
    /// The files of one's own.
    pub files: F,
    /// The folder of the library, if it stands behind the files.
    pub folder: Option<Text>,
    /// What is left of the library's text that is open, if one is.
    pub rest: Option<&'static [u8]>,
}

impl<F: Files + Drop> WithLibrary<F> {
    /// These files, with no library behind them.
    pub fn new(files: F) -> WithLibrary<F>
        ensures files { result.files ≡ files }
        ensures folder { result.folder ≡ None }
    {
        WithLibrary {
            files,
            folder: None,
            rest: None,
        }
    }
}

/// The library's text that is opened in place of a missing file.
fn served(folder: &Option<Text>, name: &str) -> Option<&'static str>
    ensures { MatchOption result (served folder.now name.now ≡ None) (λ text. served folder.now name.now ≡ Some text.now) }
{
    match folder {
        Some(folder) => text_in(folder.as_str(), name),
        None => None,
    }
}

/// Copies the next bytes of a text into the front of the room, as many as there are or as it takes, and answers how many.
fn take(rest: &[u8], room: &mut [u8]) -> usize
    ensures within { result ≤ length rest.now }
    ensures bound { result ≤ length room.new }
    ensures taken { TakesNext rest.now result room.new (drop result rest.now) }
{
    let count = rest.len().min(room.len());
    room[..count].copy_from_slice(&rest[..count]);
    count
}

impl<F: Files + Drop> Files for WithLibrary<F> {
    ghost use Rattle.run_library.specs.Behind.{behind};
    ghost use Rattle.run_library.specs.Served.{left_of};
    ghost use Rattle.std.specs.Prelude.{option_map};

    ghost holds = { λ w. behind w.folder (F.holds w.files) };

    ghost at = { λ w. left_of (option_map (λ rest. rest.now) w.rest) (F.at w.files) };

    ghost faults = { λ w. F.faults w.files };

    ghost asked = { λ w. F.asked w.files };

    ghost failures = { λ w. F.failures w.files };

    fn open(&mut self, name: Text) -> Result<(), OpenFault> {
        self.rest = None;
        let text = served(&self.folder, name.as_str());
        match self.files.open(name) {
            Ok(()) => Ok(()),
            Err(OpenFault::Missing) => match text {
                Some(text) => {
                    self.rest = Some(text.as_bytes());
                    Ok(())
                }
                None => Err(OpenFault::Missing),
            },
            Err(fault) => Err(fault),
        }
    }

    fn next(&mut self, room: &mut [u8]) -> Result<usize, Failed> {
        match self.rest {
            Some(rest) => {
                let count = take(rest, room);
                self.rest = Some(&rest[count..]);
                Ok(count)
            }
            None => self.files.next(room),
        }
    }

    fn faults(&self) -> u64 {
        self.files.faults()
    }
}
