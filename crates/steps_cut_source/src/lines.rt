//! Where the lines stand that may be taken at a cut.

ghost use Rattle.std.specs.Prelude.{◌≡◌, ◌<◌, length};
ghost use Rattle.steps_lines_defs.specs.Logs.{place_of_line};
ghost use Rattle.base_cuts.specs.Cuts.{next, total};
ghost use Rattle.base_cuts.specs.Orders.{IsCut, sizes};
ghost use Rattle.logs_tied.specs.Lines.{AreTied};
ghost use Rattle.steps_tied.specs.Tied.{IsFirstReady, line_at, moved};

use base_core::LineAt;
use base_cuts::Cut;
use logs_tied::Logs;

/// Where the first log's line stands among those that are ready at the cut.
pub(crate) fn first_ready_at(logs: &Logs, cut: &Cut) -> LineAt
    requires tied { AreTied logs.now }
    requires cut { IsCut logs.now.order cut.now }
    requires left { total cut.now < total (sizes logs.now.order) }
    ensures { IsFirstReady logs.now.files.items logs.now.order cut.now result }
{
    let file = logs.first_ready(cut);
    match logs.ready_line(cut, file) {
        Some(line) => line.at,
        None => unreachable!(),
    }
}

/// Where the line stands that is taken from the one cut to the other.
pub(crate) fn taken_at(logs: &Logs, from: &Cut, to: &Cut) -> LineAt
    requires from { length from.now ≡ length logs.now.files.items }
    requires to { length to.now ≡ length logs.now.files.items }
    ensures { result ≡ place_of_line (line_at logs.now.files.items (next from.now (moved from.now to.now))) }
{
    let file = moved_file(logs.files.len(), from, to);
    match logs.next_line(from, file) {
        Some(line) => line.at,
        None => LineAt { file: 0, line: 0 },
    }
}

/// The first log of which the cuts, of so many logs, take different numbers of lines.
fn moved_file(files: usize, from: &Cut, to: &Cut) -> usize
    requires from { length from.now ≡ files }
    requires to { length to.now ≡ files }
    ensures { result ≡ moved from.now to.now }
{
    for file in 0..files {
        if from.taken(file) != to.taken(file) {
            return file;
        }
    }
    files
}
