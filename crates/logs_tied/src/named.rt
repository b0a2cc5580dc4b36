//! The order of the lines that the marks of given states name.

ghost use Rattle.std.specs.Prelude.{◌≡◌, ◌↔◌, ◌+◌, ◌<◌, ◌≤◌, ◌++◌, ◌∷◌, [], List, IfOk, IsTrue, MatchOption, Some, slice_get};
ghost use Rattle.base_core.specs.declared.place.LineAt.{LineAt};
ghost use Rattle.base_clock_order.specs.declared.order.LineRef.{LineRef};
ghost use Rattle.base_cuts.specs.Cuts.{next, total};
ghost use Rattle.base_cuts.specs.Orders.{IsCut, IsReadyAt, sizes};
ghost use Rattle.logs_tied.specs.Lines.{AreTied};
ghost use Rattle.logs_tied.specs.Named.{IsChosen, IsNamed, IsNamedLog, name_of, names};
ghost use Rattle.logs_tied.specs.Naming.{IsNaming};

use crate::logs::Logs;
use base_core::{LineAt, NoMemory};
use base_cuts::Cut;
use logs_updates::{Line, LineList, Log, Sees, add_sees, copy_line};
use states_core::{Behaviour, Mark, Shown};
use std::alloc::Global;

/// The lines that are named so far, and the cut behind them.
#[derive(Drop)]
struct SoFar {
    cut: Cut,
    lines: LineList,
}

/// The log of all lines in the order that the marks of the states name, as far as these are ready.
pub fn named_log(alloc: Global, logs: &Logs, states: &Behaviour) -> Result<Log, NoMemory>
    requires tied { AreTied logs.now }
    requires few { total (sizes logs.now.order) ≤ 200000 }
    ensures { IfOk result (IsNamedLog logs.now states.now) }
{
    let places = named_places(alloc, states.items())?;
    let all = logs.count();
    let count = all as usize;
    let cut = logs.order.start(alloc)?;
    let lines = LineList::with_capacity(alloc, count)?;
    let mut so_far = SoFar { cut, lines };
    for number in 0..count {
        let more = with_named(alloc, logs, states, so_far, &places, number)?;
        so_far = more;
    }
    let init = copied_sees(alloc, &logs.init)?;
    Ok(Log {
        init,
        lines: so_far.lines,
    })
}

fn copied_sees(alloc: Global, sees: &Sees) -> Result<Sees, NoMemory>
    ensures { IfOk result (λ copy. copy ≡ sees.now) }
{
    let mut copy = Sees::new(alloc);
    add_sees(alloc, &mut copy, sees.items())?;
    Ok(copy)
}

/// The places that the marks name, in their order.
fn named_places(alloc: Global, states: &[Shown]) -> Result<Vec<LineAt>, NoMemory>
    ensures { IfOk result (λ places. places.items ≡ names states.now) }
{
    let mut places = Vec::new(alloc);
    for shown in states {
        let more = with_place(places, shown.mark)?;
        places = more;
    }
    Ok(places)
}

/// Adds the place that the mark names, if it names one.
fn with_place(places: Vec<LineAt>, mark: Mark) -> Result<Vec<LineAt>, NoMemory>
    ensures { IfOk result (λ more. (rest : List LineAt) → more.items ++ rest ≡ places.items ++ name_of mark rest) }
{
    match mark {
        Mark::Init => Ok(places),
        Mark::Silent => Ok(places),
        Mark::Line(at) => with_item(places, at),
    }
}

fn with_item(places: Vec<LineAt>, at: LineAt) -> Result<Vec<LineAt>, NoMemory>
    ensures { IfOk result (λ more. more.items ≡ places.items ++ at ∷ []) }
{
    let mut places = places;
    places.push(at)?;
    Ok(places)
}

/// One more line, which the place of that number chooses.
fn with_named(
    alloc: Global,
    logs: &Logs,
    _states: &Behaviour,
    so_far: SoFar,
    places: &Vec<LineAt>,
    number: usize,
) -> Result<SoFar, NoMemory>
    requires tied { AreTied logs.now }
    requires few { total (sizes logs.now.order) ≤ 200000 }
    requires places { places.now.items ≡ names _states.now }
    requires left { number < total (sizes logs.now.order) }
    requires naming { IsNaming logs.now _states.now so_far.cut so_far.lines number }
    ensures { IfOk result (λ more. IsNaming logs.now _states.now more.cut more.lines (number + 1)) }
{
    let SoFar { cut, lines } = so_far;
    let place = place_at(places, number);
    let file = chosen_file(logs, &cut, place);
    match logs.next_line(&cut, file) {
        Some(next) => {
            let longer = with_copy(alloc, lines, next)?;
            let more = logs.order.take(alloc, &cut, file)?;
            Ok(SoFar {
                cut: more,
                lines: longer,
            })
        }
        None => unreachable!(),
    }
}

fn with_copy(alloc: Global, lines: LineList, line: &Line) -> Result<LineList, NoMemory>
    ensures { IfOk result (λ more. more ≡ lines ++ line.now ∷ []) }
{
    let copy = copy_line(alloc, line)?;
    let mut lines = lines;
    lines.push(copy)?;
    Ok(lines)
}

fn place_at(places: &Vec<LineAt>, number: usize) -> Option<LineAt>
    ensures { result ≡ slice_get places.now.items number }
{
    places.get(number).copied()
}

/// The log whose next line the place chooses among those that are ready.
fn chosen_file(logs: &Logs, cut: &Cut, place: Option<LineAt>) -> usize
    requires tied { AreTied logs.now }
    requires cut { IsCut logs.now.order cut.now }
    requires left { total cut.now < total (sizes logs.now.order) }
    ensures { IsChosen logs.now.files.items logs.now.order cut.now place (next cut.now result) }
{
    match named_file(logs, cut, place) {
        Some(file) => file,
        None => logs.first_ready(cut),
    }
}

/// A log whose next line is ready and stands at the place, if a place is named and there is one.
fn named_file(logs: &Logs, cut: &Cut, place: Option<LineAt>) -> Option<usize>
    requires tied { AreTied logs.now }
    requires cut { IsCut logs.now.order cut.now }
    ensures { MatchOption result ((l : LineRef) → IsReadyAt logs.now.order cut.now l → IsNamed logs.now.files.items place l → ⊥)
        (λ file. IsReadyAt logs.now.order cut.now (next cut.now file) × IsNamed logs.now.files.items place (next cut.now file)) }
{
    match place {
        Some(at) => file_at(logs, cut, at),
        None => None,
    }
}

fn file_at(logs: &Logs, cut: &Cut, at: LineAt) -> Option<usize>
    requires tied { AreTied logs.now }
    requires cut { IsCut logs.now.order cut.now }
    ensures { MatchOption result ((l : LineRef) → IsReadyAt logs.now.order cut.now l → IsNamed logs.now.files.items (Some at) l → ⊥)
        (λ file. IsReadyAt logs.now.order cut.now (next cut.now file) × IsNamed logs.now.files.items (Some at) (next cut.now file)) }
{
    for file in 0..logs.files.len() {
        if is_named(logs, cut, file, at) {
            return Some(file);
        }
    }
    None
}

/// Whether the next line of that log is ready and stands at the place.
fn is_named(logs: &Logs, cut: &Cut, file: usize, at: LineAt) -> bool
    requires tied { AreTied logs.now }
    requires cut { IsCut logs.now.order cut.now }
    ensures { IsTrue result ↔ (IsReadyAt logs.now.order cut.now (next cut.now file) × IsNamed logs.now.files.items (Some at) (next cut.now file)) }
{
    if !stands_at(logs, cut, file, at) {
        return false;
    }
    logs.order.ready(cut, file)
}

/// Whether the next line of that log stands at the place.
fn stands_at(logs: &Logs, cut: &Cut, file: usize, at: LineAt) -> bool
    ensures { IsTrue result ↔ IsNamed logs.now.files.items (Some at) (next cut.now file) }
{
    match logs.next_line(cut, file) {
        Some(line) => line.at == at,
        None => false,
    }
}
