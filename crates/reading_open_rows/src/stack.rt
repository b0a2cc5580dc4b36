//! The rows that are open, the innermost on top.

ghost use Rattle.reading_open_rows.specs.Does.{Does, frames_in};
ghost use Rattle.reading_machine.specs.Machine.{deliver, subscripted, want};
ghost use Rattle.std.specs.Prelude.{◌≡◌, [], ◌∷◌, IfOk, MatchOption, OnOk};

pub use crate::counted::Stack;
use crate::nesting::unfinished_in;
use crate::stepped::Stepped;
use base_core::{NoMemory, Place};
use reading_machine::{Action, Frame, Mode};
use reading_trees::{Expr, Node};
use std::alloc::{AllocError, Global};

impl Stack {
    /// Nothing is open.
    pub fn new(alloc: Global) -> Stack
        ensures { frames_in result ≡ [] }
    {
        Stack {
            frames: Vec::new(alloc),
            unfinished: 0,
        }
    }
}

/// Puts a frame on top, the innermost by now.
pub fn push(stack: &mut Stack, frame: Frame) -> Result<(), NoMemory>
    ensures { OnOk result (frames_in stack.new ≡ frame ∷ frames_in stack.old) }
{
    let Some(unfinished) = stack.unfinished.checked_add(unfinished_in(&frame)) else {
        drop(frame);
        return Err(AllocError);
    };
    stack.frames.push(frame)?;
    stack.unfinished = unfinished;
    Ok(())
}

/// Takes the innermost frame.
pub fn pop(stack: &mut Stack) -> Option<Frame>
    ensures { MatchOption result ((frames_in stack.old ≡ []) × (frames_in stack.new ≡ [])) (λ f. frames_in stack.old ≡ f ∷ frames_in stack.new) }
{
    let frame = stack.frames.pop()?;
    stack.unfinished -= unfinished_in(&frame);
    Some(frame)
}

/// An expression is expected inside that frame.
pub fn want(stack: &mut Stack, frame: Frame) -> Result<Stepped, NoMemory>
    ensures { IfOk result (λ r. Does r (frames_in stack.new) (want (frame ∷ frames_in stack.old))) }
{
    push(stack, frame)?;
    Ok(Stepped::Reads(Mode::Want))
}

/// A name, a tuple or an expression in parentheses has ended; it may be the subscript that was expected.
pub fn deliver(alloc: Global, stack: &mut Stack, e: Expr) -> Result<Stepped, NoMemory>
    ensures { IfOk result (λ r. Does r (frames_in stack.new) (deliver e (frames_in stack.old))) }
{
    let Some(frame) = pop(stack) else {
        return Ok(Stepped::Reads(Mode::Have(e)));
    };
    match frame {
        Frame::Subscript(action, at, body) => {
            let whole = subscripted(alloc, action, at, body, e)?;
            Ok(Stepped::Reads(Mode::Have(whole)))
        }
        Frame::FairSubscript(at) => Ok(Stepped::Reads(Mode::FairOpen(at, e))),
        other => {
            push(stack, other)?;
            Ok(Stepped::Reads(Mode::Have(e)))
        }
    }
}

fn subscripted(
    alloc: Global,
    action: Action,
    at: Place,
    body: Expr,
    subscript: Expr,
) -> Result<Expr, NoMemory>
    ensures { IfOk result (λ e. e ≡ subscripted action at body subscript) }
{
    match action {
        Action::Box => Expr::new(alloc, at, Node::BoxAction(body, subscript)),
        Action::Angle => Expr::new(alloc, at, Node::AngleAction(body, subscript)),
    }
}
