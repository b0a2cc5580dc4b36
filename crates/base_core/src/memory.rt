ghost use Rattle.std.specs.Prelude.{◌≡◌, ◌≤◌, None, Some};
ghost use Rattle.base_core.specs.Device.{AreDistinct};
ghost use Rattle.base_core.specs.Failures.{no_failures};
ghost use Rattle.base_core.specs.Memory.{files_of, IsCalled, OpenAnswers, NextAnswers};

use crate::asked::Asked;
use crate::device::{Failed, Files, OpenFault};
use crate::held::Held;
use crate::text::Text;
use crate::turns::Turns;
use std::marker::Model;

/// Files in memory. Calls of `open` and `next` are numbered together from 1, and those whose
/// numbers are listed fail.
#[derive(Debug, Drop)]
pub struct MemoryFiles {
    held: Held,
    turns: Turns,
    asked: Asked,
}

impl Model for MemoryFiles {
    ghost use Rattle.base_core.specs.Memory.{InMemory};

    ghost Value = { InMemory };

    ghost use Rattle.base_core.specs.Device.{AreDistinct};
    ghost use Rattle.base_core.specs.Memory.{files_of, left_of};

    ghost view = { λ m. record { files = files_of m.held.files.items; left = left_of (files_of m.held.files.items) m.held.current m.held.from; failing = m.turns.failing.items; calls = m.turns.calls; course = m.asked } };

    ghost invariant = { λ m. AreDistinct (files_of m.held.files.items) };
}

impl MemoryFiles {
    /// Files of these names and bytes, of which none is open. No name stands twice.
    pub fn new(files: Vec<(Text, Vec<u8>)>, failing: Vec<u64>) -> MemoryFiles
        requires distinct { AreDistinct (files_of files.items) }
        ensures files { result.files ≡ files_of files.items }
        ensures closed { result.left ≡ None }
        ensures failing { result.failing ≡ failing.items }
        ensures calls { result.calls ≡ 0 }
        ensures asked { result.course.asked ≡ None }
        ensures failures { result.course.failures ≡ no_failures }
    {
        MemoryFiles {
            held: Held::new(files),
            turns: Turns::new(failing),
            asked: Asked::new(),
        }
    }
}

impl Files for MemoryFiles {
    ghost use Rattle.std.specs.Prelude.{Some};

    ghost holds = { λ m. Some m.files };

    ghost at = { λ m. m.left };

    ghost faults = { λ m. m.course.failures.count };

    ghost asked = { λ m. m.course.asked };

    ghost failures = { λ m. m.course.failures };

    fn open(&mut self, name: Text) -> Result<(), OpenFault>
        ensures called { IsCalled self.old self.new }
        ensures answer { OpenAnswers name self.old result self.new }
        ensures asked { self.new.course.asked ≡ Some name }
        ensures later { self.old.course.failures.count ≤ self.new.course.failures.count }
    {
        self.held.close();
        if self.turns.next_fails() {
            self.asked.ask(name);
            self.asked.fail();
            return Err(OpenFault::Failed);
        }
        let found = self.held.open(name.as_str());
        self.asked.ask(name);
        if found {
            Ok(())
        } else {
            Err(OpenFault::Missing)
        }
    }

    fn next(&mut self, room: &mut [u8]) -> Result<usize, Failed>
        ensures called { IsCalled self.old self.new }
        ensures answer { NextAnswers self.old result room.new self.new }
        ensures asked { self.new.course.asked ≡ self.old.course.asked }
        ensures later { self.old.course.failures.count ≤ self.new.course.failures.count }
    {
        if self.turns.next_fails() {
            self.asked.fail();
            return Err(Failed);
        }
        Ok(self.held.next(room))
    }

    fn faults(&self) -> u64 {
        self.asked.count()
    }
}
