//! Rows that end where their last expression does.

ghost use Rattle.reading_open_rows.specs.Does.{frames_in};
ghost use Rattle.reading_machine.specs.Machine.{folded, folds, settle};
ghost use Rattle.std.specs.Prelude.{◌≡◌, IfOk};

use crate::stack::{Stack, pop, push};
use base_core::NoMemory;
use reading_machine::Frame;
use reading_trees::{Arm, Expr, Node};
use std::alloc::Global;

/// Whether a row ends where its last expression does; a CASE does not before a `[]`.
fn folds(case: bool, frame: &Frame) -> bool
    ensures { result ≡ folds case frame.now }
{
    match frame {
        Frame::Prefix(_, _)
        | Frame::Infix(_, _, _)
        | Frame::QuantifierBody(_, _, _)
        | Frame::ChooseBody(_, _, _)
        | Frame::IfElse(_, _, _)
        | Frame::CaseOther(_, _)
        | Frame::LetBody(_, _) => true,
        Frame::CaseValue(_, _, _) => !case,
        _ => false,
    }
}

/// Such a row with its last expression.
pub fn folded(alloc: Global, frame: Frame, last: Expr) -> Result<Expr, NoMemory>
    ensures { IfOk result (λ e. e ≡ folded frame last) }
{
    match frame {
        Frame::Prefix(o, at) => {
            let node = Node::Prefix(o, last);
            Expr::new(alloc, at, node)
        }
        Frame::Infix(o, operands, at) => {
            let node = Node::Infix(o, operands, last);
            Expr::new(alloc, at, node)
        }
        Frame::QuantifierBody(q, at, bounds) => {
            let node = Node::Quantified(q, bounds, last);
            Expr::new(alloc, at, node)
        }
        Frame::ChooseBody(at, name, set) => {
            let node = Node::Choose(name, set, last);
            Expr::new(alloc, at, node)
        }
        Frame::IfElse(at, test, then) => {
            let node = Node::If(test, then, last);
            Expr::new(alloc, at, node)
        }
        Frame::CaseValue(at, mut arms, test) => {
            arms.push(Arm { test, value: last })?;
            Expr::new(alloc, at, Node::Case(arms, None))
        }
        Frame::CaseOther(at, arms) => {
            let node = Node::Case(arms, Some(last));
            Expr::new(alloc, at, node)
        }
        Frame::LetBody(at, definitions) => {
            let node = Node::Let(definitions, last);
            Expr::new(alloc, at, node)
        }
        other => {
            drop(other);
            Ok(last)
        }
    }
}

/// Puts together the rows that end here, out to the innermost that waits for a token, and gives the expression in that.
pub fn settle(alloc: Global, case: bool, stack: &mut Stack, last: Expr) -> Result<Expr, NoMemory>
    ensures { IfOk result (λ e. settle case (frames_in stack.old) last ≡ record { frames = frames_in stack.new; tree = e }) }
{
    let mut operand = last;
    while let Some(frame) = pop(stack) {
        if !folds(case, &frame) {
            push(stack, frame)?;
            return Ok(operand);
        }
        operand = folded(alloc, frame, operand)?;
    }
    Ok(operand)
}
