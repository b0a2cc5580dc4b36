ghost use Rattle.std.specs.Prelude.{◌≡◌, ◌≤◌, None, Some};
ghost use Rattle.base_core.specs.Device.{AreDistinct};
ghost use Rattle.base_core.specs.Failures.{no_failures};
ghost use Rattle.base_core.specs.Memory.{files_of, OpensSurely, TakesSurely};

use crate::device::{Failed, Files, OpenFault};
use crate::held::Held;
use crate::text::Text;
use std::marker::Model;

/// Files in memory that never fail.
#[derive(Debug, Drop)]
pub struct SureFiles {
    held: Held,
    asked: Option<Text>,
}

impl Model for SureFiles {
    ghost use Rattle.base_core.specs.Memory.{Sure};

    ghost Value = { Sure };

    ghost use Rattle.base_core.specs.Device.{AreDistinct};
    ghost use Rattle.base_core.specs.Memory.{files_of, left_of};

    ghost view = { λ m. record { files = files_of m.held.files.items; left = left_of (files_of m.held.files.items) m.held.current m.held.from; asked = m.asked } };

    ghost invariant = { λ m. AreDistinct (files_of m.held.files.items) };
}

impl SureFiles {
    /// Files of these names and bytes, of which none is open. No name stands twice.
    pub fn new(files: Vec<(Text, Vec<u8>)>) -> SureFiles
        requires distinct { AreDistinct (files_of files.items) }
        ensures files { result.files ≡ files_of files.items }
        ensures closed { result.left ≡ None }
        ensures asked { result.asked ≡ None }
    {
        SureFiles {
            held: Held::new(files),
            asked: None,
        }
    }
}

impl Files for SureFiles {
    ghost use Rattle.std.specs.Prelude.{Some};

    ghost holds = { λ m. Some m.files };

    ghost at = { λ m. m.left };

    ghost faults = { λ m. 0 };

    ghost asked = { λ m. m.asked };

    ghost failures = { λ m. no_failures };

    /// Missing exactly where there is no such file, and no other refusal.
    fn open(&mut self, name: Text) -> Result<(), OpenFault>
        ensures files { self.new.files ≡ self.old.files }
        ensures asked { self.new.asked ≡ Some name }
        ensures answer { OpensSurely name self.old.files result self.new.left }
    {
        let found = self.held.open(name.as_str());
        self.asked = Some(name);
        if found {
            Ok(())
        } else {
            Err(OpenFault::Missing)
        }
    }

    /// Never fails.
    fn next(&mut self, room: &mut [u8]) -> Result<usize, Failed>
        ensures files { self.new.files ≡ self.old.files }
        ensures asked { self.new.asked ≡ self.old.asked }
        ensures answer { TakesSurely self.old.left result room.new self.new.left }
    {
        Ok(self.held.next(room))
    }

    fn faults(&self) -> u64 {
        0
    }
}
