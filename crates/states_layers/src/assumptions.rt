ghost use Rattle.std.specs.Prelude.{IfOk, MatchOption};
ghost use Rattle.states_layers.specs.Answers.{AllAssumed};
ghost use Rattle.states_layers.specs.Says.{IsUnassumed};

use crate::answer::Answer;
use crate::steps::{StepFault, Steps};
use std::alloc::{AllocError, Global};

/// The answer on the first assumption that is not TRUE, or none.
pub fn judge<S: Steps>(alloc: Global, steps: &S) -> Result<Option<Answer>, AllocError>
    requires { S.ready steps.now }
    ensures { IfOk result (λ o. MatchOption o (AllAssumed (S.system steps.now)) (IsUnassumed (S.system steps.now))) }
{
    for index in 0..steps.assumes() {
        match steps.assumed(alloc, index) {
            Ok(None) => {}
            Ok(Some(at)) => return Ok(Some(Answer::AssumeFalse { at })),
            Err(StepFault::Eval(fault)) => {
                return Ok(Some(Answer::AssumeFault {
                    kind: fault.kind,
                    at: fault.at,
                }));
            }
            Err(_) => return Err(AllocError),
        }
    }
    Ok(None)
}
