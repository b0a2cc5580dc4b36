ghost use Rattle.std.specs.Prelude.{◌≡◌, ◌↔◌, ◌≤◌, ◌<◌, IfOk, IsTrue, length, map, true};
ghost use Rattle.logs_files.specs.Lined.{AreLogsOf, AreMadeSo, IsLinedOf, are_open, order_of};
ghost use Rattle.logs_files.specs.Logs.{AreFew, NoneFalls, clocks_in};

use crate::placing::{all_clocks, all_first_sees, log_of};
use crate::vectors::{all_vectors, are_vectors};
use base_core::NoMemory;
use base_cuts::Order;
use logs_lines::FileLines;
use logs_tied::{Lined, Logs};
use logs_updates::LineList;
use std::alloc::Global;

/// The lines of these files: those of several files in each order that vectors, or with `ties` equal numbers, leave open, and else in the order of their clocks.
pub fn lined_of(alloc: Global, ties: bool, files: Vec<FileLines>) -> Result<Lined, NoMemory>
    requires none_falls { NoneFalls (clocks_in files.items) }
    requires few_files { length files.items ≤ 4294967296 }
    requires few_lines { AreFew (clocks_in files.items) }
    ensures lined { IfOk result (IsLinedOf ties files.items) }
    ensures made { IfOk result AreMadeSo }
{
    if is_open(ties, files.as_slice()) {
        let logs = logs_of(alloc, files)?;
        return Ok(Lined::Tied(logs));
    }
    let log = log_of(alloc, files)?;
    Ok(Lined::Sequence(log))
}

/// Whether there are several files whose clocks leave an order open: vectors do, and numbers where equal ones are to.
fn is_open(ties: bool, files: &[FileLines]) -> bool
    ensures { IsTrue result ↔ (are_open ties files.now ≡ true) × (1 < length files.now) }
{
    if files.len() <= 1 {
        return false;
    }
    if ties {
        return true;
    }
    are_vectors(files)
}

/// The logs of these files, whose lines may stand in each order that their clocks leave open.
fn logs_of(alloc: Global, files: Vec<FileLines>) -> Result<Logs, NoMemory>
    ensures { IfOk result (AreLogsOf files.items) }
{
    let order = order_of(alloc, files.as_slice())?;
    let init = all_first_sees(alloc, files.as_slice())?;
    let lines = all_steps(alloc, files)?;
    Ok(Logs {
        init,
        files: lines,
        order,
    })
}

/// The orders that the clocks of these files leave open.
fn order_of(alloc: Global, files: &[FileLines]) -> Result<Order, NoMemory>
    ensures { IfOk result (λ order. order ≡ order_of files.now) }
{
    if are_vectors(files) {
        let vectors = all_vectors(alloc, files)?;
        return Ok(Order::by_vectors(vectors));
    }
    let clocks = all_clocks(alloc, files)?;
    Ok(Order::by_clock(clocks))
}

/// The steps of each file.
fn all_steps(alloc: Global, files: Vec<FileLines>) -> Result<Vec<LineList>, NoMemory>
    ensures { IfOk result (λ lines. lines.items ≡ map (λ f. f.steps) files.items) }
{
    let mut lines = Vec::with_capacity(alloc, files.len())?;
    for file in files {
        let FileLines { init, steps, .. } = file;
        drop(init);
        lines.push(steps)?;
    }
    Ok(lines)
}
