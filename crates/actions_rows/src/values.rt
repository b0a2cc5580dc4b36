//! The value that a variable keeps.

ghost use Rattle.eval_meanings.specs.Answers.{Tells};
ghost use Rattle.eval_meanings.specs.Evaluates.{Evaluates};
ghost use Rattle.eval_meanings.specs.Reads.{Reads};
ghost use Rattle.eval_parts.specs.Following.{variable_at};
ghost use Rattle.eval_parts.specs.Scenes.{context, table};

use base_core::Place;
use eval_meanings::EvalFault;
use eval_parts::{Scene, variable};
use states_core::VarId;
use values_core::{EvalKind, Value};

/// The value of a variable before, as a term that no text spells, which stands at the place.
pub fn kept_value(
    scene: Scene<'_>,
    depth: u32,
    at: Place,
    number: VarId,
) -> Result<Value, EvalFault>
    requires { Reads (table scene) depth (context scene) (variable_at at number.0) }
    ensures { Tells result (Evaluates (table scene.entry) depth (context scene.entry) (variable_at at number.0)) }
{
    if depth == 0 {
        return Err(EvalFault::Refused(EvalKind::Nested, at));
    }
    variable(scene.state, number)
}
