//! The scene in which an action's terms are evaluated.

ghost use Rattle.std.specs.Prelude.{◌≡◌, map};
ghost use Rattle.actions_meanings.specs.Filled.{at_next};
ghost use Rattle.actions_rows.specs.Rows.{before};
ghost use Rattle.eval_parts.specs.Scenes.{context, table};

use crate::stage::Stage;
use actions_meanings::Which;
use eval_parts::Scene;
use states_core::Partial;
use values_core::Value;

/// The scene where the next state is so far as it is: in Init it is the state itself.
pub fn scene_at<'a>(stage: Stage<'a>, slots: &'a [&'a Value], places: &'a Partial) -> Scene<'a>
    ensures table { table result ≡ stage.entry.operators.now }
    ensures context { context result ≡ at_next stage.entry.which (before stage.entry (map (λ v. v.now) slots.entry.now)) places.entry.now }
{
    match stage.which {
        Which::Init => Scene {
            operators: stage.operators,
            slots,
            state: places,
            next: places,
        },
        Which::Action => Scene {
            operators: stage.operators,
            slots,
            state: stage.state,
            next: places,
        },
    }
}
