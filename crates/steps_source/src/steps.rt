ghost use Rattle.std.specs.Prelude.{◌≡◌, ◌≤◌, length};
ghost use Rattle.steps_lines_defs.specs.Logs.{system};
ghost use Rattle.states_layers.specs.Gives.{IsSmall};
ghost use Rattle.steps_ready_defs.specs.Beside.{IsReady, asked};

use crate::assumption::judged;
use crate::line::line_of;
use base_core::{LineAt, Place};
use logs_updates::Log;
use names_terms::Spec;
use states_core::State;
use states_layers::{StepFault, Steps};
use std::alloc::Global;
use steps_successors::{initial, silent_steps, successors};

/// A specification beside a log, and what is asked for beside them: whether a line without an event may leave the state as it is, how many steps there
/// may be from one line's state to the next line's, and how many states a layer may have.
#[derive(Clone, Copy, Drop)]
pub struct SpecSteps<'a> {
    pub spec: &'a Spec,
    pub log: &'a Log,
    pub stutter: bool,
    pub within: u32,
    pub limit: u32,
    pub ghost few_lines: { length log.now.lines ≤ 200000 },
    pub ghost some_step: { 1 ≤ within },
    pub ghost few_steps: { within ≤ 8 },
    pub ghost small_layers: { limit ≤ 100000 },
}

/// What the search asks of the sizes holds of it.
pub fn small_law(steps: &SpecSteps<'_>)
    ensures { IsSmall (system steps.now.spec.now steps.now.log.now (asked steps.now.stutter steps.now.within steps.now.limit)) }
{}

impl<'a> Steps for SpecSteps<'a> {
    type Entry = State;

    ghost use Rattle.std.specs.Prelude.{refl};

    ghost system = { λ s. system s.spec.now s.log.now (asked s.stutter s.within s.limit) };

    ghost ready = { λ s. IsReady s.spec.now s.log.now };

    fn count(&self) -> u32 {
        self.log.lines.len() as u32
    }

    fn within(&self) -> u32 {
        self.within
    }

    fn limit(&self) -> u32 {
        self.limit
    }

    fn total(&self) -> u32 {
        2_000_000
    }

    fn at(&self, line: u32, _from: &State, _to: &State) -> LineAt {
        line_of(self.log, line).at
    }

    fn expected(&self, line: u32, _from: &State) -> LineAt {
        line_of(self.log, line).at
    }

    fn assumes(&self) -> usize {
        self.spec.assumes.len()
    }

    fn assumed(&self, alloc: Global, index: usize) -> Result<Option<Place>, StepFault> {
        match self.spec.assumes.get(index) {
            Some(term) => judged(alloc, self.spec, term),
            None => Ok(None),
        }
    }

    fn initial(&self, alloc: Global, bound: u32) -> Result<Vec<State>, StepFault> {
        initial(alloc, self.spec, &self.log.init, bound)
    }

    fn successors(
        &self,
        alloc: Global,
        line: u32,
        from: &State,
        bound: u32,
    ) -> Result<Vec<State>, StepFault> {
        let line = line_of(self.log, line);
        successors(alloc, self.spec, self.stutter, line, from, bound)
    }

    fn silent(&self, alloc: Global, from: &State, bound: u32) -> Result<Vec<State>, StepFault> {
        silent_steps(alloc, self.spec, from, bound)
    }

    ghost shows = { λ s t. refl };
}
