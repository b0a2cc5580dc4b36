ghost use Rattle.steps_walk_laws.specs.Grounds.{OrderlyActionsAreGrounded};

use crate::stable_laws::walking_law;
use steps_found_states::ground_law;

/// The walk of an action in order that has a form rests on no more than that.
pub fn orderly_law()
    ensures { OrderlyActionsAreGrounded }
{
    walking_law();
    ground_law();
}
