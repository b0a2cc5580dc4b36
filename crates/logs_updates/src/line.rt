ghost use Rattle.std.specs.Prelude.{◌≡◌, ◌≤◌, ◌++◌, [], ◌∷◌, length, slice_get, IfOk, MatchOption, OnOk, OnErr, Some};

use crate::clock::Clock;
use crate::lists::{Sees, Updates};
use crate::values::Values;
use base_core::{LineAt, NoMemory};
use std::alloc::Global;
use std::marker::Model;

/// The operator that a step satisfies, by its number in the specification, with its arguments.
#[derive(Drop)]
pub struct Event {
    pub operator: usize,
    pub args: Values,
}

/// What one line of a log says of a step.
#[derive(Drop)]
pub struct Line {
    pub at: LineAt,
    pub clock: Clock,
    pub event: Option<Event>,
    pub updates: Updates,
    pub sees: Sees,
}

/// The lines of all logs in one order, and what holds at first.
#[derive(Drop)]
pub struct Log {
    pub init: Sees,
    pub lines: LineList,
}

/// Lines in order, seen as the list of them.
#[derive(Drop)]
pub struct LineList {
    items: Vec<Line>,
}

impl Model for LineList {
    ghost use Rattle.std.specs.Prelude.{List};
    ghost use Rattle.logs_updates.specs.declared.line.Line.{Line};
    ghost use Rattle.logs_updates.specs.LineCodes.{lines_code};

    ghost Value = { List Line };

    ghost coded = { lines_code };

    ghost view = { λ l. l.items.items };
}

impl LineList {
    pub fn new(alloc: Global) -> LineList
        ensures { result ≡ [] }
    {
        LineList {
            items: Vec::new(alloc),
        }
    }

    /// Room for this many items, and none yet.
    pub fn with_capacity(alloc: Global, count: usize) -> Result<LineList, NoMemory>
        ensures { IfOk result (λ list. list ≡ []) }
    {
        let items = Vec::with_capacity(alloc, count)?;
        Ok(LineList { items })
    }

    /// Adds an item at the end, or nothing where memory is wanting.
    pub fn push(&mut self, item: Line) -> Result<(), NoMemory>
        ensures pushed { OnOk result (self.new ≡ self.old ++ item ∷ []) }
        ensures kept { OnErr result (self.new ≡ self.old) }
    {
        self.items.push(item)?;
        Ok(())
    }

    pub fn len(&self) -> usize
        ensures { result ≡ length self.now }
    {
        self.items.len()
    }

    /// The item of this number, from 0.
    pub fn get(&self, index: usize) -> Option<&Line>
        ensures { MatchOption result (length self.now ≤ index) (λ item. slice_get self.now index ≡ Some item.now) }
    {
        self.items.get(index)
    }

    pub fn items(&self) -> &[Line]
        ensures { result.now ≡ self.now }
    {
        &self.items
    }
}
