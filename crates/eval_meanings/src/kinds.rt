//! Values of a kind that is asked for, with the fault at the place of the operand.

ghost use Rattle.std.specs.Prelude.{◌≡◌, MatchResult};
ghost use Rattle.values_core.specs.Functions.{IsFunction};
ghost use Rattle.values_core.specs.Sets.{IsSet};
ghost use Rattle.values_core.specs.declared.fault.EvalKind.TheVariants.{NotFunction, NotSet};
ghost use Rattle.eval_meanings.specs.Answers.{Tells};
ghost use Rattle.eval_meanings.specs.Outcomes.{truth_at};
ghost use Rattle.eval_meanings.specs.declared.fault.EvalFault.TheVariants.{Refused};

use crate::fault::EvalFault;
use base_core::Place;
use values_core::{EvalKind, Value, ValueKind};

/// The truth value that a value is.
pub fn truth_at(value: &Value, at: Place) -> Result<bool, EvalFault>
    ensures { Tells result (truth_at at value.now) }
{
    match value.as_bool() {
        Some(truth) => Ok(truth),
        None => Err(EvalFault::Refused(EvalKind::NotBoolean, at)),
    }
}

/// That a value is a set.
pub fn expect_set(value: &Value, at: Place) -> Result<(), EvalFault>
    ensures { MatchResult result (λ _. IsSet value.now) (λ e. (e ≡ Refused NotSet at) × ¬ IsSet value.now) }
{
    match value.kind() {
        ValueKind::Set => Ok(()),
        _ => Err(EvalFault::Refused(EvalKind::NotSet, at)),
    }
}

/// That a value is a function.
pub fn expect_function(value: &Value, at: Place) -> Result<(), EvalFault>
    ensures { MatchResult result (λ _. IsFunction value.now) (λ e. (e ≡ Refused NotFunction at) × ¬ IsFunction value.now) }
{
    match value.kind() {
        ValueKind::Function => Ok(()),
        _ => Err(EvalFault::Refused(EvalKind::NotFunction, at)),
    }
}
