//! Whether an assumption of a specification holds.

ghost use Rattle.std.specs.Prelude.{◌≡◌, [], Contains};
ghost use Rattle.names_terms.specs.Lists.{terms_list};
ghost use Rattle.eval_meanings.specs.Answers.{Tells};
ghost use Rattle.eval_meanings.specs.Evaluates.{Evaluates};
ghost use Rattle.eval_meanings.specs.Unchanged.{TruthOf};
ghost use Rattle.eval_meanings.specs.Reads.{Reads};
ghost use Rattle.eval_parts.specs.Scenes.{context, table};
ghost use Rattle.names_specification_laws.specs.IsSpec.{IsSpec};
ghost use Rattle.steps_source.specs.Told.{Judged, TruthAlone, told_of};

use base_core::Place;
use base_core::limits::MAX_EVALUATIONS;
use eval_meanings::{EvalFault, truth_at};
use eval_parts::Scene;
use eval_terms::eval;
use names_terms::{Spec, Term};
use states_core::{Fault, Partial};
use states_layers::StepFault;
use std::alloc::Global;
use steps_walk_laws::evaluation_law;

/// Nothing where the assumption is TRUE, or its place where it is FALSE, or its fault.
pub fn judged(alloc: Global, spec: &Spec, term: &Term) -> Result<Option<Place>, StepFault>
    requires ordered { IsSpec spec.now }
    requires assumed { Contains (terms_list spec.now.assumes) term.now }
    ensures { Judged spec.now term.now result }
{
    told(truth_of(alloc, spec, MAX_EVALUATIONS, term), term.at)
}

/// The truth value of an assumption, where at most `depth` evaluations stand inside one another, or its fault. It reads no variable.
fn truth_of(alloc: Global, spec: &Spec, depth: u32, term: &Term) -> Result<bool, EvalFault>
    requires ordered { IsSpec spec.now }
    requires assumed { Contains (terms_list spec.now.assumes) term.now }
    ensures { Tells result (TruthAlone spec.now depth term.now) }
{
    evaluation_law();
    let nothing = Partial::empty(alloc, 0)?;
    let scene = Scene {
        operators: &spec.operators,
        slots: &[],
        state: &nothing,
        next: &nothing,
    };
    eval_truth(alloc, scene, depth, term)
}

/// The truth value of a term, or its fault.
fn eval_truth(alloc: Global, scene: Scene<'_>, depth: u32, term: &Term) -> Result<bool, EvalFault>
    requires { Reads (table scene) depth (context scene) term.now }
    ensures { Tells result (TruthOf (Evaluates (table scene.entry) depth) (context scene.entry) term.now) }
{
    match eval(alloc, scene, depth, term) {
        Ok(value) => truth_at(&value, term.at),
        Err(fault) => Err(fault),
    }
}

/// The place of an assumption with this truth value where it is FALSE, or its fault.
fn told(truth: Result<bool, EvalFault>, at: Place) -> Result<Option<Place>, StepFault>
    ensures { result ≡ told_of truth at }
{
    match truth {
        Ok(true) => Ok(None),
        Ok(false) => Ok(Some(at)),
        Err(EvalFault::Refused(kind, at)) => Err(StepFault::Eval(Fault { kind, at })),
        Err(EvalFault::NoMemory) => Err(StepFault::NoMemory),
    }
}
