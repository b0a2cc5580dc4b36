//! Sets of slots.

ghost use Rattle.std.specs.Prelude.{◌≡◌, ◌==◌, ◌↔◌, ◌+◌, ◌||◌, ◌&&◌, ℕ, [], IsTrue, OnOk, length};
ghost use Rattle.names_term_parts.specs.Marks.{Absorbs, Lacks, has};

use base_core::NoMemory;
use std::alloc::Global;
use std::marker::Model;

/// A set of slots, seen as the list of its marks.
#[derive(Debug, Drop)]
pub struct Slots {
    marks: Vec<bool>,
}

impl Model for Slots {
    ghost use Rattle.std.specs.Prelude.{List, Bool};

    ghost Value = { List Bool };

    ghost view = { λ s. s.marks.items };
}

impl Slots {
    /// No slots.
    pub fn new(alloc: Global) -> Slots
        ensures { result ≡ [] }
    {
        Slots {
            marks: Vec::new(alloc),
        }
    }

    fn count(&self) -> usize
        ensures { result ≡ length self.now }
    {
        self.marks.len()
    }

    /// Whether a slot is in the set.
    pub fn has(&self, slot: usize) -> bool
        ensures { result ≡ has self.now slot }
    {
        slot < self.marks.len() && self.marks[slot]
    }

    /// Whether the slot so many behind another is in the set.
    pub fn has_behind(&self, outer: usize, index: usize) -> bool
        ensures { result ≡ has self.now (outer + index) }
    {
        let count = self.marks.len();
        outer < count && index < count - outer && self.marks[outer + index]
    }

    /// Adds a slot.
    pub fn add(&mut self, slot: usize) -> Result<(), NoMemory>
        ensures { OnOk result ((i : ℕ) → has self.new i ≡ ((i == slot) || has self.old i)) }
    {
        while self.marks.len() <= slot {
            self.marks.push(false)?;
        }
        self.marks[slot] = true;
        Ok(())
    }

    /// Adds a slot that is in another set.
    fn take(&mut self, other: &Slots, slot: usize) -> Result<(), NoMemory>
        ensures { OnOk result ((i : ℕ) → has self.new i ≡ ((has other.now slot && (i == slot)) || has self.old i)) }
    {
        if other.has(slot) {
            return self.add(slot);
        }
        Ok(())
    }

    /// Whether another set has a slot that this one has not.
    pub fn lacks(&self, other: &Slots) -> bool
        ensures { IsTrue result ↔ Lacks self.now other.now }
    {
        for slot in 0..other.count() {
            if other.has(slot) && !self.has(slot) {
                return true;
            }
        }
        false
    }

    /// Adds the slots of another set.
    pub fn join(&mut self, other: &Slots) -> Result<(), NoMemory>
        ensures { OnOk result (Absorbs (length other.now) self.old other.now self.new) }
    {
        self.absorb(other, other.count())
    }

    /// Adds the slots of another set that are below a bound.
    pub fn absorb(&mut self, other: &Slots, below: usize) -> Result<(), NoMemory>
        ensures { OnOk result (Absorbs below self.old other.now self.new) }
    {
        let marks = other.count();
        let end = if below < marks { below } else { marks };
        for slot in 0..end {
            self.take(other, slot)?;
        }
        Ok(())
    }
}
