//! What UNCHANGED follows and looks at, where nothing is evaluated.

ghost use Rattle.std.specs.Prelude.{◌≡◌, ◌≤◌, Some, length, option_copied, slice_get};
ghost use Rattle.eval_meanings.specs.Answers.{Tells};
ghost use Rattle.eval_meanings.specs.Contexts.{within};
ghost use Rattle.eval_meanings.specs.Evaluates.{Evaluates};
ghost use Rattle.eval_meanings.specs.Unchanged.{StaysSame, behind};
ghost use Rattle.eval_parts.specs.Following.{followed, variable_at};
ghost use Rattle.eval_meanings.specs.Reads.{Knows, Reads, SameReads};
ghost use Rattle.eval_parts.specs.Scenes.{context, table};

use crate::scene::{Scene, with_slots};
use base_core::Place;
use eval_meanings::EvalFault;
use names_terms::{Level, Operator, Operators, Term, TermNode};
use states_core::{Partial, VarId};
use values_core::{EvalKind, Value};

/// What stands behind a name of level 1 without arguments, and how many of the slots in scope are in scope there.
pub fn behind<'a>(scene: Scene<'a>, term: &'a Term) -> (usize, &'a Term)
    ensures found { (result.0, result.1.now) ≡ behind (table scene.entry) (length (table scene.entry)) (length (context scene.entry).slots) term.now }
    ensures kept { result.0 ≤ length (context scene.entry).slots }
{
    let mut kept = scene.slots.len();
    let mut found = term;
    for _ in 0..scene.operators.len() {
        match followed(scene.operators, found) {
            Some(operator) => {
                kept = kept.min(operator.outer);
                found = &operator.body;
            }
            None => return (kept, found),
        }
    }
    (kept, found)
}

/// The definition that a name of level 1 without arguments stands for, if the term is such a name.
fn followed<'a>(operators: &'a Operators, term: &Term) -> Option<&'a Operator>
    ensures { option_copied result ≡ followed operators.now term.now }
{
    if term.level != Level::State {
        return None;
    }
    match &*term.node {
        TermNode::Use(number, arguments) => {
            if arguments.len() > 0 {
                return None;
            }
            operators.get(number.0)
        }
        _ => None,
    }
}

/// With the outermost slots alone, so many of them.
pub fn within(scene: Scene<'_>, kept: usize) -> Scene<'_>
    requires { kept ≤ length (context scene).slots }
    ensures table { table result ≡ table scene.entry }
    ensures context { context result ≡ within kept (context scene.entry) }
{
    with_slots(scene, &scene.slots[..kept])
}

/// Whether a variable stays the same, as `x' = x` of terms that no text spells: first `x'`, in which two evaluations stand inside one another.
pub fn variable_stays(
    scene: Scene<'_>,
    depth: u32,
    at: Place,
    number: VarId,
) -> Result<bool, EvalFault>
    requires { SameReads (Reads (table scene) depth) (context scene) at (variable_at at number.0) }
    ensures { Tells result (StaysSame (Evaluates (table scene.entry) depth) (context scene.entry) at (variable_at at number.0)) }
{
    if depth < 2 {
        return Err(EvalFault::Refused(EvalKind::Nested, at));
    }
    Ok(known(scene.next, number) == known(scene.state, number))
}

/// The value of a variable.
fn known(state: &Partial, number: VarId) -> &Value
    requires { Knows state.now number.0 }
    ensures { slice_get state.now number.0 ≡ Some (Some result.now) }
{
    match state.get(number) {
        Some(value) => value,
        None => unreachable!(),
    }
}
