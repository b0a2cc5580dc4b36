//! What a CASE chooses.

ghost use Rattle.std.specs.Prelude.{IfErr, IfOk, Ok, map, option_copied};
ghost use Rattle.actions_meanings.specs.Holds.{Chosen};
ghost use Rattle.eval_meanings.specs.Evaluates.{Evaluates};
ghost use Rattle.eval_meanings.specs.Unchanged.{TruthOf};
ghost use Rattle.names_terms.specs.Lists.{arms_list};
ghost use Rattle.eval_meanings.specs.Reads.{Reads, ReadsEach};
ghost use Rattle.eval_parts.specs.Scenes.{Stops, context, table};

use base_core::Place;
use eval_meanings::EvalFault;
use eval_parts::Scene;
use eval_terms::eval_truth;
use names_terms::{Arms, Term};
use std::alloc::Global;
use values_core::EvalKind;

/// What stands behind the first test that is true, or else the last.
pub fn chosen_arm<'a>(
    alloc: Global,
    scene: Scene<'_>,
    depth: u32,
    at: Place,
    arms: &'a Arms,
    other: Option<&'a Term>,
) -> Result<&'a Term, EvalFault>
    requires { ReadsEach (Reads (table scene) depth) (context scene) (map (λ q. q.0) (arms_list arms.now)) }
    ensures chosen { IfOk result (λ e. Chosen (TruthOf (Evaluates (table scene.entry) depth) (context scene.entry)) at (arms_list arms.now) (option_copied other.entry) (Ok e.now)) }
    ensures fault { IfErr result (Stops (Chosen (TruthOf (Evaluates (table scene.entry) depth) (context scene.entry)) at (arms_list arms.now) (option_copied other.entry))) }
{
    for arm in arms.items() {
        match eval_truth(alloc, scene, depth, &arm.test) {
            Ok(true) => return Ok(&arm.value),
            Ok(false) => {}
            Err(fault) => return Err(fault),
        }
    }
    match other {
        Some(term) => Ok(term),
        None => Err(EvalFault::Refused(EvalKind::NoCase, at)),
    }
}
