//! What an action is walked over, and what is seen of each variable, found without a test of all that is seen.

ghost use Rattle.std.specs.Prelude.{◌≡◌, IsTrue};
ghost use Rattle.std.specs.List.Sorted.{IsNonDecreasingBy};

use crate::seen::{are_sorted, of_sorted};
use actions_rows::Stage;
use logs_updates::See;
use states_core::VarId;

/// Where fewer things are seen, each of them is tested.
const MANY: usize = 8;

/// What an action is walked over, and whether what is seen is known to be sorted by variable.
#[derive(Clone, Copy, Drop)]
pub struct Course<'a> {
    pub stage: Stage<'a>,
    sorted: bool,
    ghost order: { IsTrue sorted → IsNonDecreasingBy (λ see. see.path.variable.0) stage.sees.now },
}

impl<'a> Course<'a> {
    ghost use Rattle.steps_walk.specs.Seen.{TellsOf};

    pub fn new(stage: Stage<'a>) -> Course<'a>
        ensures { result.stage ≡ stage.entry }
    {
        let sorted = stage.sees.len() >= MANY && are_sorted(stage.sees);
        Course { stage, sorted }
    }

    /// What is seen of the variable, and perhaps of others too.
    pub fn sees_of(&self, number: VarId) -> &'a [See]
        ensures { TellsOf number.0 self.now.stage.sees.now result.now }
    {
        let sees = self.stage.sees;
        if !self.sorted {
            return sees;
        }
        of_sorted(sees, number)
    }
}
