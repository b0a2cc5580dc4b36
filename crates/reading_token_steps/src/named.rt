//! Tokens in the parts of a row that are no expressions.
#![tactic(auto, unfolding(crate::specs::Kept::kept_step))]

ghost use Rattle.reading_open_rows.specs.Does.{Does, frames_in};
ghost use Rattle.reading_machine.specs.Machine as machine;
ghost use Rattle.reading_machine.specs.Machine.{has_field, on_name, on_symbol, path_ends};
ghost use Rattle.std.specs.Prelude.{◌≡◌, IfOk, List, MatchOption, ℕ};
ghost use Rattle.reading_token_steps.specs.Kept.{kept_step};

use base_core::{Names, NoMemory, Place, Text};
use reading_machine::{Binder, Binding, Form, Frame, Mode, RecordKind, Scope};
use reading_open_rows::{Stack, Stepped, want};
use reading_row_symbols::{begin_binding, with_step};
use reading_tokens::{Kind, Symbol};
use reading_trees::{
    Arms, Changes, Expr, Exprs, Fields, Laid, Node, Step, StepAt, Steps, qualified,
};
use std::alloc::Global;

/// The name that a token is, and its place.
pub fn name_at(laid: &Laid) -> Result<Option<(Text, Place)>, NoMemory>
    ensures { IfOk result (λ r. MatchOption r ((next : List ℕ → Place → machine.Stepped) (other : machine.Stepped) → on_name laid.now next other ≡ other) (λ p. (next : List ℕ → Place → machine.Stepped) (other : machine.Stepped) → on_name laid.now next other ≡ next p.0 p.1)) }
{
    match laid {
        Laid::Plain(token) => match &token.kind {
            Kind::Name(name) => Ok(Some((name.copy()?, token.place))),
            _ => Ok(None),
        },
        _ => Ok(None),
    }
}

/// The symbol that a token is, and its place.
pub fn symbol_at(laid: &Laid) -> Option<(Symbol, Place)>
    ensures { MatchOption result ((next : Symbol → Place → machine.Stepped) (other : machine.Stepped) → on_symbol laid.now next other ≡ other) (λ p. (next : Symbol → Place → machine.Stepped) (other : machine.Stepped) → on_symbol laid.now next other ≡ next p.0 p.1) }
{
    match laid {
        Laid::Plain(token) => match &token.kind {
            Kind::Symbol(symbol) => Some((*symbol, token.place)),
            _ => None,
        },
        _ => None,
    }
}

pub fn bound_name(
    laid: &Laid,
    stack: &mut Stack,
    binding: Binding,
    mut names: Names,
) -> Result<Stepped, NoMemory>
    ensures { IfOk result (λ r. Does r (frames_in stack.new) (kept_step laid.now (frames_in stack.old) (Mode.BoundName binding names))) }
{
    let _ = &stack.frames;
    let Some((name, _)) = name_at(laid)? else {
        return Ok(Stepped::Stops);
    };
    names.push(name)?;
    Ok(Stepped::Reads(Mode::BoundNamed(binding, names)))
}

pub fn bound_named(
    laid: &Laid,
    stack: &mut Stack,
    binding: Binding,
    names: Names,
) -> Result<Stepped, NoMemory>
    ensures { IfOk result (λ r. Does r (frames_in stack.new) (kept_step laid.now (frames_in stack.old) (Mode.BoundNamed binding names))) }
{
    let Some((symbol, _)) = symbol_at(laid) else {
        return Ok(Stepped::Stops);
    };
    match symbol {
        Symbol::Comma => Ok(Stepped::Reads(Mode::BoundName(binding, names))),
        Symbol::Member => want(stack, Frame::BoundSet(binding, names)),
        _ => Ok(Stepped::Stops),
    }
}

pub fn choose_name(laid: &Laid, stack: &mut Stack, at: Place) -> Result<Stepped, NoMemory>
    ensures { IfOk result (λ r. Does r (frames_in stack.new) (kept_step laid.now (frames_in stack.old) (Mode.ChooseName at))) }
{
    let _ = &stack.frames;
    let Some((name, _)) = name_at(laid)? else {
        return Ok(Stepped::Stops);
    };
    Ok(Stepped::Reads(Mode::ChooseNamed(at, name)))
}

pub fn choose_named(
    laid: &Laid,
    stack: &mut Stack,
    at: Place,
    name: Text,
) -> Result<Stepped, NoMemory>
    ensures { IfOk result (λ r. Does r (frames_in stack.new) (kept_step laid.now (frames_in stack.old) (Mode.ChooseNamed at name))) }
{
    let Some((symbol, _)) = symbol_at(laid) else {
        return Ok(Stepped::Stops);
    };
    match symbol {
        Symbol::Member => want(stack, Frame::ChooseSet(at, name)),
        _ => Ok(Stepped::Stops),
    }
}

pub fn definition_name(laid: &Laid, stack: &mut Stack, scope: Scope) -> Result<Stepped, NoMemory>
    ensures { IfOk result (λ r. Does r (frames_in stack.new) (kept_step laid.now (frames_in stack.old) (Mode.DefinitionName scope))) }
{
    let _ = &stack.frames;
    let Some((name, place)) = name_at(laid)? else {
        return Ok(Stepped::Stops);
    };
    Ok(Stepped::Reads(Mode::DefinitionNamed(scope, name, place)))
}

pub fn definition_named(
    alloc: Global,
    laid: &Laid,
    stack: &mut Stack,
    scope: Scope,
    name: Text,
    at: Place,
) -> Result<Stepped, NoMemory>
    ensures { IfOk result (λ r. Does r (frames_in stack.new) (kept_step laid.now (frames_in stack.old) (Mode.DefinitionNamed scope name at))) }
{
    let Some((symbol, q)) = symbol_at(laid) else {
        return Ok(Stepped::Stops);
    };
    match symbol {
        Symbol::Defined => want(
            stack,
            Frame::DefinitionBody(scope, name, at, Form::Operator(Names::new(alloc))),
        ),
        Symbol::OpenParenthesis => Ok(Stepped::Reads(Mode::Parameter(
            scope,
            name,
            at,
            Names::new(alloc),
        ))),
        Symbol::OpenBracket => Ok(begin_binding(alloc, Binder::Defined(scope, name, at, q))),
        _ => Ok(Stepped::Stops),
    }
}

pub fn parameter(
    laid: &Laid,
    stack: &mut Stack,
    scope: Scope,
    definition: Text,
    at: Place,
    mut names: Names,
) -> Result<Stepped, NoMemory>
    ensures { IfOk result (λ r. Does r (frames_in stack.new) (kept_step laid.now (frames_in stack.old) (Mode.Parameter scope definition at names))) }
{
    let _ = &stack.frames;
    let Some((name, _)) = name_at(laid)? else {
        return Ok(Stepped::Stops);
    };
    names.push(name)?;
    Ok(Stepped::Reads(Mode::ParameterNamed(scope, definition, at, names)))
}

pub fn parameter_named(
    laid: &Laid,
    stack: &mut Stack,
    scope: Scope,
    name: Text,
    at: Place,
    names: Names,
) -> Result<Stepped, NoMemory>
    ensures { IfOk result (λ r. Does r (frames_in stack.new) (kept_step laid.now (frames_in stack.old) (Mode.ParameterNamed scope name at names))) }
{
    let Some((symbol, _)) = symbol_at(laid) else {
        return Ok(Stepped::Stops);
    };
    match symbol {
        Symbol::Comma => Ok(Stepped::Reads(Mode::Parameter(scope, name, at, names))),
        Symbol::CloseParenthesis => Ok(Stepped::Reads(Mode::DefinedAs(
            scope,
            name,
            at,
            Form::Operator(names),
        ))),
        _ => Ok(Stepped::Stops),
    }
}

pub fn defined_as(
    laid: &Laid,
    stack: &mut Stack,
    scope: Scope,
    name: Text,
    at: Place,
    form: Form,
) -> Result<Stepped, NoMemory>
    ensures { IfOk result (λ r. Does r (frames_in stack.new) (kept_step laid.now (frames_in stack.old) (Mode.DefinedAs scope name at form))) }
{
    let Some((symbol, _)) = symbol_at(laid) else {
        return Ok(Stepped::Stops);
    };
    match symbol {
        Symbol::Defined => want(stack, Frame::DefinitionBody(scope, name, at, form)),
        _ => Ok(Stepped::Stops),
    }
}

pub fn except_mark(
    alloc: Global,
    laid: &Laid,
    stack: &mut Stack,
    at: Place,
    e: Expr,
    changes: Changes,
) -> Result<Stepped, NoMemory>
    ensures { IfOk result (λ r. Does r (frames_in stack.new) (kept_step laid.now (frames_in stack.old) (Mode.ExceptMark at e changes))) }
{
    let Some((symbol, _)) = symbol_at(laid) else {
        return Ok(Stepped::Stops);
    };
    match symbol {
        Symbol::Exclamation => Ok(Stepped::Reads(Mode::ExceptPath(
            at,
            e,
            changes,
            Steps::new(alloc),
        ))),
        _ => Ok(Stepped::Stops),
    }
}

/// The value behind a path that has a step.
fn path_ends(
    stack: &mut Stack,
    at: Place,
    e: Expr,
    changes: Changes,
    path: Steps,
) -> Result<Stepped, NoMemory>
    ensures { IfOk result (λ r. Does r (frames_in stack.new) (path_ends at e changes path (frames_in stack.old))) }
{
    if path.is_empty() {
        return Ok(Stepped::Stops);
    }
    want(stack, Frame::ExceptValue(at, e, changes, path))
}

pub fn except_path(
    alloc: Global,
    laid: &Laid,
    stack: &mut Stack,
    at: Place,
    e: Expr,
    changes: Changes,
    path: Steps,
) -> Result<Stepped, NoMemory>
    ensures { IfOk result (λ r. Does r (frames_in stack.new) (kept_step laid.now (frames_in stack.old) (Mode.ExceptPath at e changes path))) }
{
    let Some((symbol, q)) = symbol_at(laid) else {
        return Ok(Stepped::Stops);
    };
    match symbol {
        Symbol::OpenBracket => want(
            stack,
            Frame::ExceptIndex(at, e, changes, path, q, Exprs::new(alloc)),
        ),
        Symbol::Dot => Ok(Stepped::Reads(Mode::ExceptField(at, e, changes, path, q))),
        Symbol::Equal => path_ends(stack, at, e, changes, path),
        _ => Ok(Stepped::Stops),
    }
}

pub fn except_field(
    laid: &Laid,
    stack: &mut Stack,
    at: Place,
    e: Expr,
    changes: Changes,
    mut path: Steps,
    dot: Place,
) -> Result<Stepped, NoMemory>
    ensures { IfOk result (λ r. Does r (frames_in stack.new) (kept_step laid.now (frames_in stack.old) (Mode.ExceptField at e changes path dot))) }
{
    let _ = &stack.frames;
    let Some((name, _)) = name_at(laid)? else {
        return Ok(Stepped::Stops);
    };
    path.push(StepAt {
        at: dot,
        step: Step::Field(name),
    })?;
    Ok(Stepped::Reads(Mode::ExceptPath(at, e, changes, path)))
}

pub fn field_name(
    alloc: Global,
    laid: &Laid,
    stack: &mut Stack,
    e: Expr,
    dot: Place,
) -> Result<Stepped, NoMemory>
    ensures { IfOk result (λ r. Does r (frames_in stack.new) (kept_step laid.now (frames_in stack.old) (Mode.FieldName e dot))) }
{
    let _ = &stack.frames;
    let Some((name, _)) = name_at(laid)? else {
        return Ok(Stepped::Stops);
    };
    let whole = with_step(alloc, e, dot, Step::Field(name))?;
    Ok(Stepped::Reads(Mode::Have(whole)))
}

pub fn instance_name(
    alloc: Global,
    laid: &Laid,
    stack: &mut Stack,
    at: Place,
    instance: Text,
) -> Result<Stepped, NoMemory>
    ensures { IfOk result (λ r. Does r (frames_in stack.new) (kept_step laid.now (frames_in stack.old) (Mode.InstanceName at instance))) }
{
    let _ = &stack.frames;
    let Some((name, _)) = name_at(laid)? else {
        return Ok(Stepped::Stops);
    };
    let whole = qualified(alloc, &instance, &name)?;
    let e = Expr::new(alloc, at, Node::Qualified(whole, Exprs::new(alloc)))?;
    Ok(Stepped::Reads(Mode::Have(e)))
}

pub fn record_name(
    laid: &Laid,
    stack: &mut Stack,
    kind: RecordKind,
    at: Place,
    fields: Fields,
) -> Result<Stepped, NoMemory>
    ensures { IfOk result (λ r. Does r (frames_in stack.new) (kept_step laid.now (frames_in stack.old) (Mode.RecordName kind at fields))) }
{
    let _ = &stack.frames;
    let Some((name, _)) = name_at(laid)? else {
        return Ok(Stepped::Stops);
    };
    if has_field(&name, &fields) {
        return Ok(Stepped::Stops);
    }
    Ok(Stepped::Reads(Mode::RecordNamed(kind, at, fields, name)))
}

/// Whether a field of that name stands among these.
fn has_field(name: &Text, fields: &Fields) -> bool
    ensures { result ≡ has_field name.now fields.now }
{
    for field in fields.items() {
        if name.as_str() == field.name.as_str() {
            return true;
        }
    }
    false
}

pub fn record_named(
    laid: &Laid,
    stack: &mut Stack,
    kind: RecordKind,
    at: Place,
    fields: Fields,
    name: Text,
) -> Result<Stepped, NoMemory>
    ensures { IfOk result (λ r. Does r (frames_in stack.new) (kept_step laid.now (frames_in stack.old) (Mode.RecordNamed kind at fields name))) }
{
    let Some((symbol, _)) = symbol_at(laid) else {
        return Ok(Stepped::Stops);
    };
    match kind {
        RecordKind::Record => match symbol {
            Symbol::MapsTo => want(stack, Frame::Record(RecordKind::Record, at, fields, name)),
            _ => Ok(Stepped::Stops),
        },
        RecordKind::Set => match symbol {
            Symbol::Colon => want(stack, Frame::Record(RecordKind::Set, at, fields, name)),
            _ => Ok(Stepped::Stops),
        },
    }
}

pub fn fair_open(
    laid: &Laid,
    stack: &mut Stack,
    at: Place,
    subscript: Expr,
) -> Result<Stepped, NoMemory>
    ensures { IfOk result (λ r. Does r (frames_in stack.new) (kept_step laid.now (frames_in stack.old) (Mode.FairOpen at subscript))) }
{
    let Some((symbol, _)) = symbol_at(laid) else {
        return Ok(Stepped::Stops);
    };
    match symbol {
        Symbol::OpenParenthesis => want(stack, Frame::FairBody(at, subscript)),
        _ => Ok(Stepped::Stops),
    }
}

pub fn other_arrow(
    laid: &Laid,
    stack: &mut Stack,
    at: Place,
    arms: Arms,
) -> Result<Stepped, NoMemory>
    ensures { IfOk result (λ r. Does r (frames_in stack.new) (kept_step laid.now (frames_in stack.old) (Mode.OtherArrow at arms))) }
{
    let Some((symbol, _)) = symbol_at(laid) else {
        return Ok(Stepped::Stops);
    };
    match symbol {
        Symbol::Arrow => want(stack, Frame::CaseOther(at, arms)),
        _ => Ok(Stepped::Stops),
    }
}
