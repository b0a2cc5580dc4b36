ghost use Rattle.std.specs.Prelude.{◌≡◌, ◌<◌, ◌≤◌, MatchOption, Some, length, slice_get};
ghost use Rattle.base_clock_order.specs.declared.order.LineRef.{LineRef};
ghost use Rattle.logs_updates.specs.declared.line.Line.{Line};
ghost use Rattle.base_cuts.specs.Cuts.{next, total};
ghost use Rattle.base_cuts.specs.Orders.{IsCut, IsReadyAt, sizes, sizes_of};
ghost use Rattle.logs_tied.specs.Lines.{AreTied, StandsIn};

use base_cuts::{Cut, Order};
use logs_updates::{Line, LineList, Log, Sees};

/// Several logs: what holds at first, the lines of each, and what says in which orders all of them may stand.
#[derive(Drop)]
pub struct Logs {
    pub init: Sees,
    pub files: Vec<LineList>,
    pub order: Order,
}

/// The lines of all logs: in one order, or in each that is allowed.
#[derive(Drop)]
pub enum Lined {
    Sequence(Log),
    Tied(Logs),
}

impl Logs {
    /// How many lines all logs have together.
    pub fn count(&self) -> u32
        requires tied { AreTied self.now }
        requires few { total (sizes self.now.order) ≤ 200000 }
        ensures { result ≡ total (sizes self.now.order) }
    {
        lines_in(&self.files)
    }

    /// The next line of that log, counted from 0, at the cut, if it has one.
    #[tactic(auto, using(crate::proofs::Taking::no_log, crate::proofs::Taking::no_line, crate::proofs::Taking::has_line))]
    pub fn next_line(&self, cut: &Cut, file: usize) -> Option<&Line>
        ensures { MatchOption result ((line : Line) → StandsIn self.now.files.items (next cut.now file) line → ⊥)
            (λ line. StandsIn self.now.files.items (next cut.now file) line.now) }
    {
        match log_of(&self.files, file) {
            Some(log) => match log.get(cut.taken(file) as usize) {
                Some(line) => Some(line),
                None => None,
            },
            None => None,
        }
    }

    /// The next line of that log, if it is ready at the cut.
    pub fn ready_line(&self, cut: &Cut, file: usize) -> Option<&Line>
        requires tied { AreTied self.now }
        requires cut { IsCut self.now.order cut.now }
        ensures { MatchOption result (IsReadyAt self.now.order cut.now (next cut.now file) → ⊥)
            (λ line. IsReadyAt self.now.order cut.now (next cut.now file) × StandsIn self.now.files.items (next cut.now file) line.now) }
    {
        if !self.order.ready(cut, file) {
            return None;
        }
        self.next_line(cut, file)
    }

    /// The first log whose next line is ready at the cut, where lines are left.
    pub fn first_ready(&self, cut: &Cut) -> usize
        requires tied { AreTied self.now }
        requires cut { IsCut self.now.order cut.now }
        requires left { total cut.now < total (sizes self.now.order) }
        ensures ready { IsReadyAt self.now.order cut.now (next cut.now result) }
        ensures first { (other : LineRef) → IsReadyAt self.now.order cut.now other → result ≤ other.file }
    {
        for file in 0..self.files.len() {
            if self.order.ready(cut, file) {
                return file;
            }
        }
        unreachable!()
    }
}

fn lines_in(files: &[LineList]) -> u32
    requires { total (sizes_of files.now) ≤ 200000 }
    ensures { result ≡ total (sizes_of files.now) }
{
    let mut count = 0;
    for file in files {
        count += file.len() as u32;
    }
    count
}

/// The log of that number, from 0.
fn log_of(files: &Vec<LineList>, file: usize) -> Option<&LineList>
    ensures { MatchOption result (length files.now.items ≤ file) (λ log. slice_get files.now.items file ≡ Some log.now) }
{
    files.get(file)
}
