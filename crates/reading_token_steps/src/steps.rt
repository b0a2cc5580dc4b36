//! The reader: one token after another.

ghost use Rattle.reading_open_rows.specs.Does.{Does, frames_in};
ghost use Rattle.std.specs.Prelude.{IfOk};
ghost use Rattle.reading_token_steps.specs.Kept.{kept_step};

use crate::behind::follows;
use crate::{named, starts};
use base_core::NoMemory;
use reading_machine::Mode;
use reading_open_rows::{Stack, Stepped};
use reading_row_symbols::begins;
use reading_trees::{Expr, Laid};
use std::alloc::Global;

/// An expression is expected.
#[tactic(auto, unfolding(crate::specs::Kept::kept_step))]
fn wanted(alloc: Global, laid: &Laid, stack: &mut Stack) -> Result<Stepped, NoMemory>
    ensures { IfOk result (λ r. Does r (frames_in stack.new) (kept_step laid.now (frames_in stack.old) Mode.Want)) }
{
    begins(alloc, laid, stack)
}

/// A primary was read.
#[tactic(auto, unfolding(crate::specs::Kept::kept_step, crate::specs::Kept::kept_follows))]
fn had(alloc: Global, laid: &Laid, stack: &mut Stack, e: Expr) -> Result<Stepped, NoMemory>
    ensures { IfOk result (λ r. Does r (frames_in stack.new) (kept_step laid.now (frames_in stack.old) (Mode.Have e))) }
{
    follows(alloc, laid, stack, e)
}

/// What a laid token does.
pub fn step(alloc: Global, laid: &Laid, stack: &mut Stack, mode: Mode) -> Result<Stepped, NoMemory>
    ensures { IfOk result (λ r. Does r (frames_in stack.new) (kept_step laid.now (frames_in stack.old) mode)) }
{
    match mode {
        Mode::Want => wanted(alloc, laid, stack),
        Mode::Have(e) => had(alloc, laid, stack, e),
        Mode::BoundName(binding, names) => named::bound_name(laid, stack, binding, names),
        Mode::BoundNamed(binding, names) => named::bound_named(laid, stack, binding, names),
        Mode::BracketStart(at) => starts::bracket_start(alloc, laid, stack, at),
        Mode::BracketName(at, name, p) => starts::bracket_name(alloc, laid, stack, at, name, p),
        Mode::BraceStart(at) => starts::brace_start(alloc, laid, stack, at),
        Mode::BraceName(at, name, p) => starts::brace_name(alloc, laid, stack, at, name, p),
        Mode::TupleStart(at) => starts::tuple_start(alloc, laid, stack, at),
        Mode::ListStart(bullet, at) => starts::list_start(alloc, laid, stack, bullet, at),
        Mode::ChooseName(at) => named::choose_name(laid, stack, at),
        Mode::ChooseNamed(at, name) => named::choose_named(laid, stack, at, name),
        Mode::DefinitionName(scope) => named::definition_name(laid, stack, scope),
        Mode::DefinitionNamed(scope, name, at) => named::definition_named(
            alloc, laid, stack, scope, name, at,
        ),
        Mode::Parameter(scope, name, at, names) => named::parameter(
            laid, stack, scope, name, at, names,
        ),
        Mode::ParameterNamed(scope, name, at, names) => named::parameter_named(
            laid, stack, scope, name, at, names,
        ),
        Mode::DefinedAs(scope, name, at, form) => named::defined_as(
            laid, stack, scope, name, at, form,
        ),
        Mode::ExceptMark(at, e, changes) => named::except_mark(alloc, laid, stack, at, e, changes),
        Mode::ExceptPath(at, e, changes, path) => named::except_path(
            alloc, laid, stack, at, e, changes, path,
        ),
        Mode::ExceptField(at, e, changes, path, dot) => named::except_field(
            laid, stack, at, e, changes, path, dot,
        ),
        Mode::FieldName(e, dot) => named::field_name(alloc, laid, stack, e, dot),
        Mode::InstanceName(at, instance) => named::instance_name(alloc, laid, stack, at, instance),
        Mode::RecordName(kind, at, fields) => named::record_name(laid, stack, kind, at, fields),
        Mode::RecordNamed(kind, at, fields, name) => named::record_named(
            laid, stack, kind, at, fields, name,
        ),
        Mode::SubscriptStart(action, at, e) => starts::subscript_start(
            alloc, laid, stack, action, at, e,
        ),
        Mode::FairStart(at) => starts::fair_start(alloc, laid, stack, at),
        Mode::FairOpen(at, subscript) => named::fair_open(laid, stack, at, subscript),
        Mode::CaseNext(at, arms) => starts::case_next(alloc, laid, stack, at, arms),
        Mode::OtherArrow(at, arms) => named::other_arrow(laid, stack, at, arms),
    }
}
