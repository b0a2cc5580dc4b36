ghost use Rattle.std.specs.Prelude.{◌≡◌, ◌≤◌, [], vec_len, vec_capacity};
ghost use Rattle.base_core.specs.Memory.{IsPut, PutAnswers};

use crate::device::{Failed, Sink};
use crate::turns::Turns;
use std::marker::Model;

/// A sink in memory with room for a fixed number of bytes. Calls of `put` are numbered from 1, and
/// those whose numbers are listed fail.
#[derive(Debug, Drop)]
pub struct MemorySink {
    bytes: Vec<u8>,
    room: usize,
    turns: Turns,
    faults: u64,
}

impl Model for MemorySink {
    ghost use Rattle.std.specs.Prelude.{◌≤◌, vec_len, vec_capacity};
    ghost use Rattle.base_core.specs.Memory.{SinkInMemory};

    ghost Value = { SinkInMemory };

    ghost view = { λ m. record { bytes = m.bytes.items; room = m.room; failing = m.turns.failing.items; calls = m.turns.calls; faults = m.faults } };

    ghost invariant = { λ m. (vec_len m.bytes ≤ m.room) × (m.room ≤ vec_capacity m.bytes) };
}

impl MemorySink {
    /// An empty sink over this buffer, which has the room by itself.
    pub fn new(buffer: Vec<u8>, room: usize, failing: Vec<u64>) -> MemorySink
        requires empty { vec_len buffer ≡ 0 }
        requires reserved { room ≤ vec_capacity buffer }
        ensures bytes { result.bytes ≡ [] }
        ensures room { result.room ≡ room }
        ensures failing { result.failing ≡ failing.items }
        ensures calls { result.calls ≡ 0 }
        ensures faults { result.faults ≡ 0 }
    {
        MemorySink {
            bytes: buffer,
            room,
            turns: Turns::new(failing),
            faults: 0,
        }
    }

    /// What was put so far.
    pub fn written(&self) -> &[u8]
        ensures { result.now ≡ self.now.bytes }
    {
        &self.bytes
    }
}

impl Sink for MemorySink {
    ghost use Rattle.std.specs.Prelude.{Some};

    ghost written = { λ m. Some m.bytes };

    ghost faults = { λ m. m.faults };

    fn put(&mut self, piece: &[u8]) -> Result<(), Failed>
        ensures called { IsPut self.old self.new }
        ensures answer { PutAnswers self.old piece.now result self.new }
        ensures later { self.old.faults ≤ self.new.faults }
    {
        if self.turns.next_fails() {
            self.faults = self.faults.saturating_add(1);
            return Err(Failed);
        }
        let count = piece.len().min(self.room - self.bytes.len());
        if self.bytes.extend_from_slice(&piece[..count]).is_err() || count < piece.len() {
            self.faults = self.faults.saturating_add(1);
            return Err(Failed);
        }
        Ok(())
    }

    fn faults(&self) -> u64 {
        self.faults
    }
}
