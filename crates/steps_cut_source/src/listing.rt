//! The steps by the lines that are ready, log by log.

ghost use Rattle.std.specs.Prelude.{◌≡◌, ◌+◌, ◌≤◌, IfErr, IfOk, length};
ghost use Rattle.steps_lines_defs.specs.Says.{IsState};
ghost use Rattle.base_cuts.specs.Cuts.{next};
ghost use Rattle.base_cuts.specs.Orders.{IsCut, IsReadyAt};
ghost use Rattle.logs_tied.specs.Lines.{StandsIn};
ghost use Rattle.steps_tied.specs.Beside.{IsReadyBeside};
ghost use Rattle.steps_cut_source.specs.Spoken.{AreListed, IsStopped};

use crate::entry::Entry;
use crate::placing::push_at;
use crate::steps::CutSteps;
use logs_updates::Line;
use states_layers::StepFault;
use std::alloc::Global;
use steps_successors::successors;

/// The steps from the entry by the lines that are ready there.
pub(crate) fn ready_steps(
    alloc: Global,
    steps: &CutSteps<'_>,
    from: &Entry,
    bound: u32,
) -> Result<Vec<Entry>, StepFault>
    requires ready { IsReadyBeside steps.now.spec.now steps.now.logs.now }
    requires cut { IsCut steps.now.logs.now.order from.now.cut }
    requires state { IsState (length steps.now.spec.now.variables) from.now.state }
    ensures all { IfOk result (λ made. AreListed steps.now from.now (length steps.now.logs.now.files.items) made.items) }
    ensures stopped { IfErr result (IsStopped steps.now from.now bound) }
{
    let mut made = Vec::new(alloc);
    for file in 0..steps.logs.files.len() {
        let more = add_steps(alloc, steps, from, bound, file, made)?;
        made = more;
    }
    Ok(made)
}

/// The steps by the next line of that log, if it is ready, behind those by the lines of the logs before it.
fn add_steps(
    alloc: Global,
    steps: &CutSteps<'_>,
    from: &Entry,
    bound: u32,
    file: usize,
    made: Vec<Entry>,
) -> Result<Vec<Entry>, StepFault>
    requires ready { IsReadyBeside steps.now.spec.now steps.now.logs.now }
    requires cut { IsCut steps.now.logs.now.order from.now.cut }
    requires state { IsState (length steps.now.spec.now.variables) from.now.state }
    requires few { length made.items ≤ bound }
    requires below { AreListed steps.now from.now file made.items }
    ensures few { IfOk result (λ now. length now.items ≤ bound) }
    ensures all { IfOk result (λ now. AreListed steps.now from.now (file + 1) now.items) }
    ensures stopped { IfErr result (IsStopped steps.now from.now bound) }
{
    match steps.logs.ready_line(&from.cut, file) {
        Some(line) => add_line(alloc, steps, from, bound, file, line, made),
        None => Ok(made),
    }
}

/// The steps by that line, which is ready and the next of its log.
fn add_line(
    alloc: Global,
    steps: &CutSteps<'_>,
    from: &Entry,
    bound: u32,
    file: usize,
    line: &Line,
    made: Vec<Entry>,
) -> Result<Vec<Entry>, StepFault>
    requires ready { IsReadyBeside steps.now.spec.now steps.now.logs.now }
    requires state { IsState (length steps.now.spec.now.variables) from.now.state }
    requires next { IsReadyAt steps.now.logs.now.order from.now.cut (next from.now.cut file) }
    requires stands { StandsIn steps.now.logs.now.files.items (next from.now.cut file) line.now }
    requires few { length made.items ≤ bound }
    requires below { AreListed steps.now from.now file made.items }
    ensures few { IfOk result (λ now. length now.items ≤ bound) }
    ensures all { IfOk result (λ now. AreListed steps.now from.now (file + 1) now.items) }
    ensures stopped { IfErr result (IsStopped steps.now from.now bound) }
{
    match successors(alloc, steps.spec, steps.stutter, line, &from.state, bound) {
        Ok(states) => {
            if states.len() > bound as usize - made.len() {
                return Err(StepFault::TooMany);
            }
            let cut = steps.logs.order.take(alloc, &from.cut, file)?;
            let now = push_at(alloc, made, &cut, states)?;
            Ok(now)
        }
        Err(stop) => Err(stop),
    }
}
