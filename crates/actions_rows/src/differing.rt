//! Truth values of parts, those too that no text spells.

ghost use Rattle.std.specs.Prelude.{◌≡◌, length};
ghost use Rattle.actions_meanings.specs.Forms.{test, unchanged_form};
ghost use Rattle.eval_meanings.specs.Answers.{Tells};
ghost use Rattle.eval_meanings.specs.Evaluates.{Evaluates};
ghost use Rattle.eval_meanings.specs.Unchanged.{TruthOf, behind, changed_of, unchanged_of};
ghost use Rattle.eval_meanings.specs.Reads.{Reads};
ghost use Rattle.eval_parts.specs.Scenes.{context, table};
ghost use Rattle.actions_rows.specs.Rows.{part_term};
ghost use Rattle.actions_rows.specs.Tested.{IsTested};

use crate::part::Part;
use base_core::Place;
use eval_meanings::{EvalFault, truth_at};
use eval_parts::Scene;
use eval_terms::{eval_changed, eval_truth, stays_same};
use names_terms::Term;
use std::alloc::Global;
use values_core::EvalKind;

/// The truth value of a part that is not taken apart.
pub fn part_truth(
    alloc: Global,
    scene: Scene<'_>,
    depth: u32,
    part: Part<'_>,
) -> Result<bool, EvalFault>
    requires read { Reads (table scene) depth (context scene) (part_term part) }
    requires tested { IsTested (table scene) (length (context scene).slots) part }
    ensures { Tells result (TruthOf (Evaluates (table scene.entry) depth) (context scene.entry) (part_term part.entry)) }
{
    match part {
        Part::Plain(term) => eval_truth(alloc, scene, depth, term),
        Part::Unchanged(at, term) => unchanged_truth(alloc, scene, depth, at, term),
    }
}

/// Whether a term is unchanged, behind which stands no variable and no tuple.
fn unchanged_truth(
    alloc: Global,
    scene: Scene<'_>,
    depth: u32,
    at: Place,
    term: &Term,
) -> Result<bool, EvalFault>
    requires read { Reads (table scene) depth (context scene) (unchanged_of at term.now) }
    requires tested { unchanged_form at (behind (table scene) (length (table scene)) (length (context scene).slots) term.now) ≡ test }
    ensures { Tells result (TruthOf (Evaluates (table scene.entry) depth) (context scene.entry) (unchanged_of at term.now)) }
{
    if depth == 0 {
        return Err(EvalFault::Refused(EvalKind::Nested, at));
    }
    stays_same(alloc, scene, depth - 1, at, term)
}

/// Whether the value of a term changes, as a term that no text spells, which stands at the place.
pub fn changed_truth(
    alloc: Global,
    scene: Scene<'_>,
    depth: u32,
    at: Place,
    term: &Term,
) -> Result<bool, EvalFault>
    requires { Reads (table scene) depth (context scene) (changed_of at term.now) }
    ensures { Tells result (TruthOf (Evaluates (table scene.entry) depth) (context scene.entry) (changed_of at term.now)) }
{
    match eval_changed(alloc, scene, depth, at, term) {
        Ok(value) => truth_at(&value, at),
        Err(fault) => Err(fault),
    }
}
