//! Tokens at the beginning of a row of which the next tokens say what it is.
#![tactic(auto, unfolding(crate::specs::Kept::kept_step))]

ghost use Rattle.reading_open_rows.specs.Does.{Does, frames_in};
ghost use Rattle.reading_machine.specs.Machine.{begins, subscript_started};
ghost use Rattle.std.specs.Prelude.{◌≡◌, [], ◌∷◌, IfOk};
ghost use Rattle.reading_trees.specs.Trees.{Name, NoBounds};
ghost use Rattle.reading_token_steps.specs.Kept.{kept_follows, kept_step};

use crate::behind::{follows, same_bullet};
use crate::named::{name_at, symbol_at};
use base_core::{Names, NoMemory, Place, Text};
use reading_machine::{Action, Binder, Binding, Frame, Mode, RecordKind};
use reading_open_rows::{Stack, Stepped, deliver, push, want};
use reading_row_symbols::begins;
use reading_tokens::{Kind, Symbol, Word};
use reading_trees::{Arms, Bounds, Bullet, Expr, Exprs, Fields, Laid, Node};
use std::alloc::Global;

/// An expression begins inside that frame.
fn begins_in(
    alloc: Global,
    laid: &Laid,
    stack: &mut Stack,
    frame: Frame,
) -> Result<Stepped, NoMemory>
    ensures { IfOk result (λ r. Does r (frames_in stack.new) (begins laid.now (frame ∷ frames_in stack.old))) }
{
    push(stack, frame)?;
    begins(alloc, laid, stack)
}

/// A name begins an expression inside that frame.
fn name_follows(
    alloc: Global,
    laid: &Laid,
    stack: &mut Stack,
    frame: Frame,
    name: Text,
    at: Place,
) -> Result<Stepped, NoMemory>
    ensures { IfOk result (λ r. Does r (frames_in stack.new) (kept_follows laid.now (frame ∷ frames_in stack.old) (Name at name))) }
{
    push(stack, frame)?;
    let node = Node::Name(name);
    follows(alloc, laid, stack, Expr::new(alloc, at, node)?)
}

pub fn bracket_start(
    alloc: Global,
    laid: &Laid,
    stack: &mut Stack,
    at: Place,
) -> Result<Stepped, NoMemory>
    ensures { IfOk result (λ r. Does r (frames_in stack.new) (kept_step laid.now (frames_in stack.old) (Mode.BracketStart at))) }
{
    if let Some((name, p)) = name_at(laid)? {
        return Ok(Stepped::Reads(Mode::BracketName(at, name, p)));
    }
    begins_in(alloc, laid, stack, Frame::Bracket(at))
}

#[tactic(auto, unfolding(crate::specs::Kept::kept_step, crate::specs::Kept::kept_follows))]
pub fn bracket_name(
    alloc: Global,
    laid: &Laid,
    stack: &mut Stack,
    at: Place,
    name: Text,
    p: Place,
) -> Result<Stepped, NoMemory>
    ensures { IfOk result (λ r. Does r (frames_in stack.new) (kept_step laid.now (frames_in stack.old) (Mode.BracketName at name p))) }
{
    let Some((symbol, q)) = symbol_at(laid) else {
        return name_follows(alloc, laid, stack, Frame::Bracket(at), name, p);
    };
    match symbol {
        Symbol::MapsTo => want(
            stack,
            Frame::Record(RecordKind::Record, at, Fields::new(alloc), name),
        ),
        Symbol::Colon => want(
            stack,
            Frame::Record(RecordKind::Set, at, Fields::new(alloc), name),
        ),
        Symbol::Comma => function_names(alloc, at, name),
        Symbol::Member => want(stack, Frame::MaybeFunction(at, name, p, q)),
        _ => name_follows(alloc, laid, stack, Frame::Bracket(at), name, p),
    }
}

/// `[x,`
fn function_names(alloc: Global, at: Place, name: Text) -> Result<Stepped, NoMemory>
    ensures { IfOk result (λ r. r ≡ Stepped.Reads (Mode.BoundName (record { binder = Binder.Function at; bounds = NoBounds }) (name ∷ []))) }
{
    let mut names = Names::new(alloc);
    names.push(name)?;
    let binding = Binding {
        binder: Binder::Function(at),
        bounds: Bounds::new(alloc),
    };
    Ok(Stepped::Reads(Mode::BoundName(binding, names)))
}

pub fn brace_start(
    alloc: Global,
    laid: &Laid,
    stack: &mut Stack,
    at: Place,
) -> Result<Stepped, NoMemory>
    ensures { IfOk result (λ r. Does r (frames_in stack.new) (kept_step laid.now (frames_in stack.old) (Mode.BraceStart at))) }
{
    if let Some((name, p)) = name_at(laid)? {
        return Ok(Stepped::Reads(Mode::BraceName(at, name, p)));
    }
    let Some((symbol, _)) = symbol_at(laid) else {
        return begins_in(alloc, laid, stack, Frame::Braces(at, Exprs::new(alloc)));
    };
    match symbol {
        Symbol::CloseBrace => {
            let node = Node::SetOf(Exprs::new(alloc));
            Ok(Stepped::Reads(Mode::Have(Expr::new(alloc, at, node)?)))
        }
        _ => begins_in(alloc, laid, stack, Frame::Braces(at, Exprs::new(alloc))),
    }
}

#[tactic(auto, unfolding(crate::specs::Kept::kept_step, crate::specs::Kept::kept_follows))]
pub fn brace_name(
    alloc: Global,
    laid: &Laid,
    stack: &mut Stack,
    at: Place,
    name: Text,
    p: Place,
) -> Result<Stepped, NoMemory>
    ensures { IfOk result (λ r. Does r (frames_in stack.new) (kept_step laid.now (frames_in stack.old) (Mode.BraceName at name p))) }
{
    let Some((symbol, q)) = symbol_at(laid) else {
        return name_follows(
            alloc,
            laid,
            stack,
            Frame::Braces(at, Exprs::new(alloc)),
            name,
            p,
        );
    };
    match symbol {
        Symbol::Member => want(stack, Frame::MaybeFilter(at, name, p, q)),
        _ => name_follows(
            alloc,
            laid,
            stack,
            Frame::Braces(at, Exprs::new(alloc)),
            name,
            p,
        ),
    }
}

pub fn tuple_start(
    alloc: Global,
    laid: &Laid,
    stack: &mut Stack,
    at: Place,
) -> Result<Stepped, NoMemory>
    ensures { IfOk result (λ r. Does r (frames_in stack.new) (kept_step laid.now (frames_in stack.old) (Mode.TupleStart at))) }
{
    let Some((symbol, _)) = symbol_at(laid) else {
        return begins_in(alloc, laid, stack, Frame::Tuple(at, Exprs::new(alloc)));
    };
    match symbol {
        Symbol::CloseTuple => {
            let node = Node::Tuple(Exprs::new(alloc));
            deliver(alloc, stack, Expr::new(alloc, at, node)?)
        }
        _ => begins_in(alloc, laid, stack, Frame::Tuple(at, Exprs::new(alloc))),
    }
}

pub fn list_start(
    alloc: Global,
    laid: &Laid,
    stack: &mut Stack,
    bullet: Bullet,
    at: Place,
) -> Result<Stepped, NoMemory>
    ensures { IfOk result (λ r. Does r (frames_in stack.new) (kept_step laid.now (frames_in stack.old) (Mode.ListStart bullet at))) }
{
    match laid {
        Laid::ListItem(other, _) => {
            if !same_bullet(bullet, *other) {
                return Ok(Stepped::Stops);
            }
            want(stack, Frame::Junction(bullet, at, Exprs::new(alloc)))
        }
        _ => Ok(Stepped::Stops),
    }
}

/// A name, a tuple or an expression in parentheses begins.
fn subscript_started(alloc: Global, laid: &Laid, stack: &mut Stack) -> Result<Stepped, NoMemory>
    ensures { IfOk result (λ r. Does r (frames_in stack.new) (subscript_started laid.now (frames_in stack.old))) }
{
    if let Some((name, at)) = name_at(laid)? {
        let node = Node::Name(name);
        return deliver(alloc, stack, Expr::new(alloc, at, node)?);
    }
    let Some((symbol, q)) = symbol_at(laid) else {
        return Ok(Stepped::Stops);
    };
    match symbol {
        Symbol::OpenParenthesis => want(stack, Frame::Parenthesis(q)),
        Symbol::OpenTuple => Ok(Stepped::Reads(Mode::TupleStart(q))),
        _ => Ok(Stepped::Stops),
    }
}

pub fn subscript_start(
    alloc: Global,
    laid: &Laid,
    stack: &mut Stack,
    action: Action,
    at: Place,
    e: Expr,
) -> Result<Stepped, NoMemory>
    ensures { IfOk result (λ r. Does r (frames_in stack.new) (kept_step laid.now (frames_in stack.old) (Mode.SubscriptStart action at e))) }
{
    push(stack, Frame::Subscript(action, at, e))?;
    subscript_started(alloc, laid, stack)
}

pub fn fair_start(
    alloc: Global,
    laid: &Laid,
    stack: &mut Stack,
    at: Place,
) -> Result<Stepped, NoMemory>
    ensures { IfOk result (λ r. Does r (frames_in stack.new) (kept_step laid.now (frames_in stack.old) (Mode.FairStart at))) }
{
    push(stack, Frame::FairSubscript(at))?;
    subscript_started(alloc, laid, stack)
}

pub fn case_next(
    alloc: Global,
    laid: &Laid,
    stack: &mut Stack,
    at: Place,
    arms: Arms,
) -> Result<Stepped, NoMemory>
    ensures { IfOk result (λ r. Does r (frames_in stack.new) (kept_step laid.now (frames_in stack.old) (Mode.CaseNext at arms))) }
{
    match laid {
        Laid::Plain(token) => match &token.kind {
            Kind::Word(Word::Other) => Ok(Stepped::Reads(Mode::OtherArrow(at, arms))),
            _ => begins_in(alloc, laid, stack, Frame::CaseTest(at, arms)),
        },
        _ => begins_in(alloc, laid, stack, Frame::CaseTest(at, arms)),
    }
}
