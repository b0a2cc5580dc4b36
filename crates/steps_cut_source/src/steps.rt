ghost use Rattle.std.specs.Prelude.{◌≡◌, ◌≤◌};
ghost use Rattle.base_cuts.specs.Cuts.{total};
ghost use Rattle.base_cuts.specs.Orders.{sizes};
ghost use Rattle.states_layers.specs.Gives.{IsSmall};
ghost use Rattle.steps_ready_defs.specs.Beside.{asked};
ghost use Rattle.logs_tied.specs.Lines.{AreTied};
ghost use Rattle.steps_tied.specs.Tied.{tied_system};
ghost use Rattle.steps_tied.specs.Beside.{IsReadyBeside};

use crate::assuming::assumed;
use crate::entry::Entry;
use crate::lines::{first_ready_at, taken_at};
use crate::listing::ready_steps;
use crate::placing::entries;
use base_core::{LineAt, Place};
use logs_tied::Logs;
use names_terms::Spec;
use states_layers::{StepFault, Steps};
use std::alloc::Global;
use steps_successors::{initial, silent_steps};

/// A specification beside several logs, and what is asked for beside them: whether a line without an event may leave the state as it is, how many
/// steps there may be from one line's state to the next line's, and how many entries a layer may have.
#[derive(Clone, Copy, Drop)]
pub struct CutSteps<'a> {
    pub spec: &'a Spec,
    pub logs: &'a Logs,
    pub stutter: bool,
    pub within: u32,
    pub limit: u32,
    pub ghost tied: { ∥ AreTied logs.now ∥₁ },
    pub ghost few_lines: { total (sizes logs.now.order) ≤ 200000 },
    pub ghost some_step: { 1 ≤ within },
    pub ghost few_steps: { within ≤ 8 },
    pub ghost small_layers: { limit ≤ 100000 },
}

/// What the search asks of the sizes holds of it.
pub fn small_law(steps: &CutSteps<'_>)
    ensures { IsSmall (tied_system steps.now.spec.now steps.now.logs.now (asked steps.now.stutter steps.now.within steps.now.limit)) }
{}

impl<'a> Steps for CutSteps<'a> {
    type Entry = Entry;

    ghost use Rattle.std.specs.Prelude.{refl};

    ghost system = { λ s. tied_system s.spec.now s.logs.now (asked s.stutter s.within s.limit) };

    ghost ready = { λ s. IsReadyBeside s.spec.now s.logs.now };

    fn count(&self) -> u32 {
        self.logs.count()
    }

    fn within(&self) -> u32 {
        self.within
    }

    fn limit(&self) -> u32 {
        self.limit
    }

    fn total(&self) -> u32 {
        2_000_000
    }

    fn at(&self, _line: u32, from: &Entry, to: &Entry) -> LineAt {
        taken_at(self.logs, &from.cut, &to.cut)
    }

    fn expected(&self, _line: u32, from: &Entry) -> LineAt {
        first_ready_at(self.logs, &from.cut)
    }

    fn assumes(&self) -> usize {
        self.spec.assumes.len()
    }

    fn assumed(&self, alloc: Global, index: usize) -> Result<Option<Place>, StepFault> {
        assumed(alloc, self.spec, index)
    }

    fn initial(&self, alloc: Global, bound: u32) -> Result<Vec<Entry>, StepFault> {
        match initial(alloc, self.spec, &self.logs.init, bound) {
            Ok(states) => {
                let cut = self.logs.order.start(alloc)?;
                let first = entries(alloc, &cut, states)?;
                Ok(first)
            }
            Err(stop) => Err(stop),
        }
    }

    fn successors(
        &self,
        alloc: Global,
        _line: u32,
        from: &Entry,
        bound: u32,
    ) -> Result<Vec<Entry>, StepFault> {
        ready_steps(alloc, self, from, bound)
    }

    fn silent(&self, alloc: Global, from: &Entry, bound: u32) -> Result<Vec<Entry>, StepFault> {
        match silent_steps(alloc, self.spec, &from.state, bound) {
            Ok(states) => {
                let next = entries(alloc, &from.cut, states)?;
                Ok(next)
            }
            Err(stop) => Err(stop),
        }
    }

    ghost shows = { λ s t. refl };
}
