ghost use Rattle.std.specs.Prelude.{◌≡◌, ◌≤◌, ◌++◌, ◌∷◌, [], All, IfOk, MatchOption, OnOk, length, map};
ghost use Rattle.std.specs.List.{AllZip};
ghost use Rattle.base_clock_order.specs.Orders.{IsLine, IsMerged, clocks_of};
ghost use Rattle.logs_files.specs.Logs.{AreFew, IsLogOf, NoneFalls, StandsAt, clocks_in, first_sees, numbers_in, sees_of};
ghost use Rattle.logs_updates.specs.Clocks.{number_in};
ghost use Rattle.logs_updates.specs.declared.line.Line.{Line};

use base_clock_order::{LineRef, merge};
use base_core::NoMemory;
use logs_lines::FileLines;
use logs_updates::{Clock, Line, LineList, Log, Sees, add_sees, copy_line};
use std::alloc::{AllocError, Global};

/// The log of these files, whose steps stand each in the order of their clocks.
pub fn log_of(alloc: Global, files: Vec<FileLines>) -> Result<Log, NoMemory>
    requires none_falls { NoneFalls (clocks_in files.items) }
    requires few_files { length files.items ≤ 4294967296 }
    requires few_lines { AreFew (clocks_in files.items) }
    ensures { IfOk result (IsLogOf files.items) }
{
    if files.len() != 1 {
        return merged_log(alloc, files.as_slice());
    }
    let mut files = files;
    match files.pop() {
        Some(file) => Ok(log_of_one(alloc, file)),
        None => unreachable!(),
    }
}

/// The log of one file: its steps as they are.
fn log_of_one(alloc: Global, file: FileLines) -> Log
    requires { NoneFalls (clocks_in (file ∷ [])) }
    ensures { IsLogOf (file ∷ []) result }
{
    let FileLines { init, steps, .. } = file;
    Log {
        init: sees_or_none(alloc, init),
        lines: steps,
    }
}

fn sees_or_none(alloc: Global, init: Option<Sees>) -> Sees
    ensures { result ≡ sees_of init }
{
    match init {
        Some(sees) => sees,
        None => Sees::new(alloc),
    }
}

fn merged_log(alloc: Global, files: &[FileLines]) -> Result<Log, NoMemory>
    requires none_falls { NoneFalls (clocks_in files.now) }
    requires few_files { length files.now ≤ 4294967296 }
    requires few_lines { AreFew (clocks_in files.now) }
    ensures { IfOk result (IsLogOf files.now) }
{
    let order = order_of(alloc, files)?;
    let init = all_first_sees(alloc, files)?;
    let lines = placed_lines(alloc, files, order.as_slice())?;
    Ok(Log { init, lines })
}

/// The steps of all files by clock, then file, then line.
fn order_of(alloc: Global, files: &[FileLines]) -> Result<Vec<LineRef>, NoMemory>
    requires none_falls { NoneFalls (clocks_in files.now) }
    requires few_files { length files.now ≤ 4294967296 }
    requires few_lines { AreFew (clocks_in files.now) }
    ensures { IfOk result (λ order. IsMerged (numbers_in files.now) order.items) }
{
    let clocks = all_clocks(alloc, files)?;
    merge(alloc, clocks.as_slice())
}

/// The numbers that are the clocks of each file.
pub(crate) fn all_clocks(alloc: Global, files: &[FileLines]) -> Result<Vec<Vec<i64>>, AllocError>
    ensures { IfOk result (λ clocks. clocks_of clocks.items ≡ numbers_in files.now) }
{
    let mut clocks = Vec::with_capacity(alloc, files.len())?;
    for file in files {
        let log = step_clocks(alloc, file.steps.items())?;
        clocks.push(log)?;
    }
    Ok(clocks)
}

fn step_clocks(alloc: Global, steps: &[Line]) -> Result<Vec<i64>, AllocError>
    ensures { IfOk result (λ clocks. clocks.items ≡ map (λ l. number_in l.clock) steps.now) }
{
    let mut clocks = Vec::with_capacity(alloc, steps.len())?;
    for step in steps {
        clocks.push(number_in(step))?;
    }
    Ok(clocks)
}

fn number_in(step: &Line) -> i64
    ensures { result ≡ number_in step.now.clock }
{
    match step.clock {
        Clock::Number(number) => number,
        Clock::Vector(_) => 0,
    }
}

/// What the init lines say, file by file.
pub(crate) fn all_first_sees(alloc: Global, files: &[FileLines]) -> Result<Sees, NoMemory>
    ensures { IfOk result (λ sees. sees ≡ first_sees files.now) }
{
    let mut sees = Sees::new(alloc);
    for file in files {
        add_first_sees(alloc, &mut sees, file)?;
    }
    Ok(sees)
}

fn add_first_sees(alloc: Global, sees: &mut Sees, file: &FileLines) -> Result<(), NoMemory>
    ensures { OnOk result (sees.new ≡ sees.old ++ sees_of file.now.init) }
{
    match &file.init {
        Some(first) => add_sees(alloc, sees, first.items()),
        None => Ok(()),
    }
}

/// Equal copies of the steps that stand at these places.
fn placed_lines(alloc: Global, files: &[FileLines], order: &[LineRef]) -> Result<LineList, NoMemory>
    requires { All (IsLine (numbers_in files.now)) order.now }
    ensures { IfOk result (AllZip (StandsAt files.now) order.now) }
{
    let mut lines = LineList::with_capacity(alloc, order.len())?;
    for place in order {
        push_step(alloc, &mut lines, files, place)?;
    }
    Ok(lines)
}

fn push_step(
    alloc: Global,
    lines: &mut LineList,
    files: &[FileLines],
    place: &LineRef,
) -> Result<(), NoMemory>
    requires { IsLine (numbers_in files.now) place.now }
    ensures { OnOk result ((line : Line) × StandsAt files.now place.now line × (lines.new ≡ lines.old ++ line ∷ [])) }
{
    let step = step_at(files, *place);
    let copy = copy_line(alloc, step)?;
    lines.push(copy)
}

fn step_at<'a>(files: &'a [FileLines], place: LineRef) -> &'a Line
    requires { IsLine (numbers_in files.now) place }
    ensures { StandsAt files.now place result.now }
{
    let file = &files[place.file as usize];
    match file.steps.get(place.index as usize) {
        Some(step) => step,
        None => unreachable!(),
    }
}
