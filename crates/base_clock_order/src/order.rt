ghost use Rattle.std.specs.Prelude.{◌≡◌, ◌++◌, ◌≤◌, IfOk, OnOk, length, map};
ghost use Rattle.std.specs.List.Sorted.{IsPermutation, IsSorted};
ghost use Rattle.base_clock_order.specs.Orders.{AreFew, IsAllowedByClock, IsAsLong, IsMerged, IsOnlyOrder, NoneFalls, clocks_of};
ghost use Rattle.base_clock_order.specs.Stamps.{line_of, stamp_cmp, stamps_from, stamps_in};

use base_core::NoMemory;
use std::alloc::{AllocError, Global};

/// A line by the number of its log and its place there, both from 0.
#[derive(Clone, Copy, Debug, Drop, PartialEq, Eq)]
pub struct LineRef {
    pub file: u32,
    pub index: u32,
}

/// The lines of all logs, given the clocks of each log line by line: by clock, then log, then place.
pub fn merge(alloc: Global, clocks: &[Vec<i64>]) -> Result<Vec<LineRef>, NoMemory>
    requires none_falls { NoneFalls (clocks_of clocks.now) }
    requires few_logs { length clocks.now ≤ 4294967296 }
    requires few_lines { AreFew (clocks_of clocks.now) }
    ensures { IfOk result (λ order. IsMerged (clocks_of clocks.now) order.items) }
{
    let stamps = stamps_of(alloc, clocks)?;
    let stamps = sorted(stamps);
    lines_of(alloc, stamps.as_slice())
}

/// That the order by clock, log and place is the only one, one that the clocks alone allow, and as long as all logs together.
pub fn order_laws()
    ensures only { IsOnlyOrder }
    ensures by_clock { IsAllowedByClock }
    ensures long { IsAsLong }
{}

/// Each line with its clock, log by log.
fn stamps_of(alloc: Global, clocks: &[Vec<i64>]) -> Result<Vec<(i64, u32, u32)>, AllocError>
    requires few_logs { length clocks.now ≤ 4294967296 }
    requires few_lines { AreFew (clocks_of clocks.now) }
    ensures { IfOk result (λ stamps. stamps.items ≡ stamps_from 0 (clocks_of clocks.now)) }
{
    let mut stamps = Vec::new(alloc);
    for file in 0..clocks.len() {
        push_log(&mut stamps, file as u32, clocks[file].as_slice())?;
    }
    Ok(stamps)
}

/// Adds the lines of one log with their clocks.
fn push_log(stamps: &mut Vec<(i64, u32, u32)>, file: u32, log: &[i64]) -> Result<(), AllocError>
    requires { length log.now ≤ 4294967296 }
    ensures { OnOk result (stamps.new.items ≡ stamps.old.items ++ stamps_in file 0 log.now) }
{
    for index in 0..log.len() {
        stamps.push((log[index], file, index as u32))?;
    }
    Ok(())
}

/// By clock, then log, then place.
fn sorted(stamps: Vec<(i64, u32, u32)>) -> Vec<(i64, u32, u32)>
    ensures same { IsPermutation stamps.items result.items }
    ensures sorted { IsSorted stamp_cmp result.items }
{
    let mut stamps = stamps;
    stamps.sort_unstable();
    stamps
}

/// The lines without their clocks.
fn lines_of(alloc: Global, stamps: &[(i64, u32, u32)]) -> Result<Vec<LineRef>, AllocError>
    ensures { IfOk result (λ lines. lines.items ≡ map line_of stamps.now) }
{
    let mut lines = Vec::with_capacity(alloc, stamps.len())?;
    for (_, file, index) in stamps {
        lines.push(LineRef {
            file: *file,
            index: *index,
        })?;
    }
    Ok(lines)
}
