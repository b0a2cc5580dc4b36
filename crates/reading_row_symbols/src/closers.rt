//! Tokens at the innermost row that waits for one, behind a whole expression in it.

ghost use Rattle.reading_open_rows.specs.Does.{Does, frames_in};
ghost use Rattle.reading_machine.specs.Machine.{of_records, symbol_closes, with_step};
ghost use Rattle.std.specs.Prelude.{◌≡◌, IfOk, Ok};
ghost use Rattle.reading_trees.specs.TreeViews.{node_view, step_view};

use crate::binders::bound_close;
use crate::brackets::{
    Member, braces_close, bracket_close, filter_close, function_close, tuple_close,
};
use base_core::{NoMemory, Place, Text};
use reading_machine::{Frame, Mode, RecordKind};
use reading_open_rows::{Stack, Stepped, deliver, want};
use reading_tokens::Symbol;
use reading_trees::{
    Arm, Arms, Bounds, Change, Changes, Expr, Exprs, Field, Fields, Node, Step, StepAt, Steps,
};
use std::alloc::Global;

/// A path of a change at one of its brackets.
struct Path {
    at: Place,
    base: Expr,
    changes: Changes,
    steps: Steps,
    bracket: Place,
}

/// A primary with one more step behind it.
pub fn with_step(alloc: Global, e: Expr, at: Place, step: Step) -> Result<Expr, NoMemory>
    ensures { IfOk result (λ r. r ≡ with_step e at (step_view step)) }
{
    let (before, node) = e.into_parts();
    match node {
        Node::Postfix(base, mut steps, last) => {
            steps.push(StepAt {
                at: before,
                step: last,
            })?;
            Expr::new(alloc, at, Node::Postfix(base, steps, step))
        }
        other => {
            let base = Expr::new(alloc, before, other)?;
            Expr::new(alloc, at, Node::Postfix(base, Steps::new(alloc), step))
        }
    }
}

/// A primary that has ended.
pub fn have(alloc: Global, at: Place, node: Node) -> Result<Stepped, NoMemory>
    ensures { IfOk result (λ r. r ≡ Stepped.Reads (Mode.Have (node_view at node))) }
{
    Ok(Stepped::Reads(Mode::Have(Expr::new(alloc, at, node)?)))
}

fn of_records(alloc: Global, kind: RecordKind, at: Place, fields: Fields) -> Result<Expr, NoMemory>
    ensures { IfOk result (λ e. e ≡ of_records kind at fields) }
{
    match kind {
        RecordKind::Record => Expr::new(alloc, at, Node::Record(fields)),
        RecordKind::Set => Expr::new(alloc, at, Node::RecordSet(fields)),
    }
}

fn parenthesis_closes(
    alloc: Global,
    symbol: Symbol,
    at: Place,
    stack: &mut Stack,
    e: Expr,
) -> Result<Stepped, NoMemory>
    ensures { IfOk result (λ r. Does r (frames_in stack.new) (symbol_closes symbol (Frame.Parenthesis at) (frames_in stack.old) e)) }
{
    match symbol {
        Symbol::CloseParenthesis => {
            let node = Node::Parenthesized(e);
            deliver(alloc, stack, Expr::new(alloc, at, node)?)
        }
        _ => Ok(Stepped::Stops),
    }
}

fn call_closes(
    alloc: Global,
    symbol: Symbol,
    name: Text,
    at: Place,
    mut arguments: Exprs,
    stack: &mut Stack,
    e: Expr,
) -> Result<Stepped, NoMemory>
    ensures { IfOk result (λ r. Does r (frames_in stack.new) (symbol_closes symbol (Frame.Call name at arguments) (frames_in stack.old) e)) }
{
    arguments.push(e)?;
    match symbol {
        Symbol::Comma => want(stack, Frame::Call(name, at, arguments)),
        Symbol::CloseParenthesis => have(alloc, at, Node::Call(name, arguments)),
        _ => Ok(Stepped::Stops),
    }
}

fn qualified_call_closes(
    alloc: Global,
    symbol: Symbol,
    name: Text,
    at: Place,
    mut arguments: Exprs,
    stack: &mut Stack,
    e: Expr,
) -> Result<Stepped, NoMemory>
    ensures { IfOk result (λ r. Does r (frames_in stack.new) (symbol_closes symbol (Frame.QualifiedCall name at arguments) (frames_in stack.old) e)) }
{
    arguments.push(e)?;
    match symbol {
        Symbol::Comma => want(stack, Frame::QualifiedCall(name, at, arguments)),
        Symbol::CloseParenthesis => have(alloc, at, Node::Qualified(name, arguments)),
        _ => Ok(Stepped::Stops),
    }
}

fn index_closes(
    alloc: Global,
    symbol: Symbol,
    base: Expr,
    at: Place,
    mut arguments: Exprs,
    stack: &mut Stack,
    e: Expr,
) -> Result<Stepped, NoMemory>
    ensures { IfOk result (λ r. Does r (frames_in stack.new) (symbol_closes symbol (Frame.Index base at arguments) (frames_in stack.old) e)) }
{
    arguments.push(e)?;
    match symbol {
        Symbol::Comma => want(stack, Frame::Index(base, at, arguments)),
        Symbol::CloseBracket => {
            let whole = with_step(alloc, base, at, Step::Index(arguments))?;
            Ok(Stepped::Reads(Mode::Have(whole)))
        }
        _ => Ok(Stepped::Stops),
    }
}

fn filter_test_closes(
    alloc: Global,
    symbol: Symbol,
    at: Place,
    name: Text,
    set: Expr,
    stack: &mut Stack,
    e: Expr,
) -> Result<Stepped, NoMemory>
    ensures { IfOk result (λ r. Does r (frames_in stack.new) (symbol_closes symbol (Frame.FilterTest at name set) (frames_in stack.old) e)) }
{
    let _ = &stack.frames;
    match symbol {
        Symbol::CloseBrace => {
            let node = Node::Filter(name, set, e);
            have(alloc, at, node)
        }
        _ => Ok(Stepped::Stops),
    }
}

fn function_body_closes(
    alloc: Global,
    symbol: Symbol,
    at: Place,
    bounds: Bounds,
    stack: &mut Stack,
    e: Expr,
) -> Result<Stepped, NoMemory>
    ensures { IfOk result (λ r. Does r (frames_in stack.new) (symbol_closes symbol (Frame.FunctionBody at bounds) (frames_in stack.old) e)) }
{
    let _ = &stack.frames;
    match symbol {
        Symbol::CloseBracket => {
            let node = Node::Function(bounds, e);
            have(alloc, at, node)
        }
        _ => Ok(Stepped::Stops),
    }
}

fn function_range_closes(
    alloc: Global,
    symbol: Symbol,
    at: Place,
    set: Expr,
    stack: &mut Stack,
    e: Expr,
) -> Result<Stepped, NoMemory>
    ensures { IfOk result (λ r. Does r (frames_in stack.new) (symbol_closes symbol (Frame.FunctionRange at set) (frames_in stack.old) e)) }
{
    let _ = &stack.frames;
    match symbol {
        Symbol::CloseBracket => {
            let node = Node::FunctionSet(set, e);
            have(alloc, at, node)
        }
        _ => Ok(Stepped::Stops),
    }
}

fn record_closes(
    alloc: Global,
    symbol: Symbol,
    kind: RecordKind,
    at: Place,
    mut fields: Fields,
    name: Text,
    stack: &mut Stack,
    e: Expr,
) -> Result<Stepped, NoMemory>
    ensures { IfOk result (λ r. Does r (frames_in stack.new) (symbol_closes symbol (Frame.Record kind at fields name) (frames_in stack.old) e)) }
{
    let _ = &stack.frames;
    fields.push(Field { name, value: e })?;
    match symbol {
        Symbol::Comma => Ok(Stepped::Reads(Mode::RecordName(kind, at, fields))),
        Symbol::CloseBracket => Ok(Stepped::Reads(Mode::Have(of_records(
            alloc, kind, at, fields,
        )?))),
        _ => Ok(Stepped::Stops),
    }
}

fn except_index_closes(
    symbol: Symbol,
    path: Path,
    mut arguments: Exprs,
    stack: &mut Stack,
    e: Expr,
) -> Result<Stepped, NoMemory>
    ensures { IfOk result (λ r. Does r (frames_in stack.new) (symbol_closes symbol (Frame.ExceptIndex path.at path.base path.changes path.steps path.bracket arguments) (frames_in stack.old) e)) }
{
    let Path {
        at,
        base,
        changes,
        mut steps,
        bracket,
    } = path;
    arguments.push(e)?;
    match symbol {
        Symbol::Comma => want(
            stack,
            Frame::ExceptIndex(at, base, changes, steps, bracket, arguments),
        ),
        Symbol::CloseBracket => {
            steps.push(StepAt {
                at: bracket,
                step: Step::Index(arguments),
            })?;
            Ok(Stepped::Reads(Mode::ExceptPath(at, base, changes, steps)))
        }
        _ => Ok(Stepped::Stops),
    }
}

fn except_value_closes(
    alloc: Global,
    symbol: Symbol,
    at: Place,
    base: Expr,
    mut changes: Changes,
    path: Steps,
    stack: &mut Stack,
    e: Expr,
) -> Result<Stepped, NoMemory>
    ensures { IfOk result (λ r. Does r (frames_in stack.new) (symbol_closes symbol (Frame.ExceptValue at base changes path) (frames_in stack.old) e)) }
{
    let _ = &stack.frames;
    changes.push(Change { path, value: e })?;
    match symbol {
        Symbol::Comma => Ok(Stepped::Reads(Mode::ExceptMark(at, base, changes))),
        Symbol::CloseBracket => {
            let node = Node::Except(base, changes);
            have(alloc, at, node)
        }
        _ => Ok(Stepped::Stops),
    }
}

fn choose_set_closes(
    symbol: Symbol,
    at: Place,
    name: Text,
    stack: &mut Stack,
    e: Expr,
) -> Result<Stepped, NoMemory>
    ensures { IfOk result (λ r. Does r (frames_in stack.new) (symbol_closes symbol (Frame.ChooseSet at name) (frames_in stack.old) e)) }
{
    match symbol {
        Symbol::Colon => want(stack, Frame::ChooseBody(at, name, e)),
        _ => Ok(Stepped::Stops),
    }
}

fn case_test_closes(
    symbol: Symbol,
    at: Place,
    arms: Arms,
    stack: &mut Stack,
    e: Expr,
) -> Result<Stepped, NoMemory>
    ensures { IfOk result (λ r. Does r (frames_in stack.new) (symbol_closes symbol (Frame.CaseTest at arms) (frames_in stack.old) e)) }
{
    match symbol {
        Symbol::Arrow => want(stack, Frame::CaseValue(at, arms, e)),
        _ => Ok(Stepped::Stops),
    }
}

fn case_value_closes(
    symbol: Symbol,
    at: Place,
    mut arms: Arms,
    test: Expr,
    stack: &mut Stack,
    e: Expr,
) -> Result<Stepped, NoMemory>
    ensures { IfOk result (λ r. Does r (frames_in stack.new) (symbol_closes symbol (Frame.CaseValue at arms test) (frames_in stack.old) e)) }
{
    let _ = &stack.frames;
    arms.push(Arm { test, value: e })?;
    match symbol {
        Symbol::Always => Ok(Stepped::Reads(Mode::CaseNext(at, arms))),
        _ => Ok(Stepped::Stops),
    }
}

fn fair_body_closes(
    alloc: Global,
    symbol: Symbol,
    at: Place,
    subscript: Expr,
    stack: &mut Stack,
    e: Expr,
) -> Result<Stepped, NoMemory>
    ensures { IfOk result (λ r. Does r (frames_in stack.new) (symbol_closes symbol (Frame.FairBody at subscript) (frames_in stack.old) e)) }
{
    let _ = &stack.frames;
    match symbol {
        Symbol::CloseParenthesis => {
            let node = Node::Fairness(subscript, e);
            have(alloc, at, node)
        }
        _ => Ok(Stepped::Stops),
    }
}

/// No symbol goes on in this row. Its frame is let go by `drop`, whose proof is made once.
fn stops(frame: Frame, _e: Expr) -> Result<Stepped, NoMemory>
    ensures { result ≡ Ok Stepped.Stops }
{
    drop(frame);
    Ok(Stepped::Stops)
}

/// A symbol at the innermost frame that waits.
pub fn symbol_closes(
    alloc: Global,
    symbol: Symbol,
    frame: Frame,
    stack: &mut Stack,
    e: Expr,
) -> Result<Stepped, NoMemory>
    ensures { IfOk result (λ r. Does r (frames_in stack.new) (symbol_closes symbol frame (frames_in stack.old) e)) }
{
    match frame {
        Frame::Parenthesis(at) => parenthesis_closes(alloc, symbol, at, stack, e),
        Frame::Call(name, at, arguments) => call_closes(
            alloc, symbol, name, at, arguments, stack, e,
        ),
        Frame::QualifiedCall(name, at, arguments) => qualified_call_closes(
            alloc, symbol, name, at, arguments, stack, e,
        ),
        Frame::Index(base, at, arguments) => index_closes(
            alloc, symbol, base, at, arguments, stack, e,
        ),
        Frame::Braces(at, elements) => braces_close(alloc, symbol, at, elements, stack, e),
        Frame::MaybeFilter(at, name, p, q) => filter_close(
            alloc,
            symbol,
            Member {
                at,
                name,
                name_at: p,
                member_at: q,
            },
            stack,
            e,
        ),
        Frame::FilterTest(at, name, set) => filter_test_closes(
            alloc, symbol, at, name, set, stack, e,
        ),
        Frame::Tuple(at, items) => tuple_close(alloc, symbol, at, items, stack, e),
        Frame::Bracket(at) => bracket_close(symbol, at, stack, e),
        Frame::MaybeFunction(at, name, p, q) => function_close(
            alloc,
            symbol,
            Member {
                at,
                name,
                name_at: p,
                member_at: q,
            },
            stack,
            e,
        ),
        Frame::FunctionBody(at, bounds) => function_body_closes(
            alloc, symbol, at, bounds, stack, e,
        ),
        Frame::FunctionRange(at, set) => function_range_closes(alloc, symbol, at, set, stack, e),
        Frame::Record(kind, at, fields, name) => record_closes(
            alloc, symbol, kind, at, fields, name, stack, e,
        ),
        Frame::BoundSet(binding, names) => bound_close(alloc, symbol, binding, names, stack, e),
        Frame::ExceptIndex(at, base, changes, steps, bracket, arguments) => except_index_closes(
            symbol,
            Path {
                at,
                base,
                changes,
                steps,
                bracket,
            },
            arguments,
            stack,
            e,
        ),
        Frame::ExceptValue(at, base, changes, path) => except_value_closes(
            alloc, symbol, at, base, changes, path, stack, e,
        ),
        Frame::ChooseSet(at, name) => choose_set_closes(symbol, at, name, stack, e),
        Frame::CaseTest(at, arms) => case_test_closes(symbol, at, arms, stack, e),
        Frame::CaseValue(at, arms, test) => case_value_closes(symbol, at, arms, test, stack, e),
        Frame::FairBody(at, subscript) => fair_body_closes(alloc, symbol, at, subscript, stack, e),
        Frame::Junction(_, _, _) => stops(frame, e),
        Frame::Prefix(_, _) => stops(frame, e),
        Frame::Infix(_, _, _) => stops(frame, e),
        Frame::QuantifierBody(_, _, _) => stops(frame, e),
        Frame::ChooseBody(_, _, _) => stops(frame, e),
        Frame::IfTest(_) => stops(frame, e),
        Frame::IfThen(_, _) => stops(frame, e),
        Frame::IfElse(_, _, _) => stops(frame, e),
        Frame::CaseOther(_, _) => stops(frame, e),
        Frame::DefinitionBody(_, _, _, _) => stops(frame, e),
        Frame::LetBody(_, _) => stops(frame, e),
        Frame::Subscript(_, _, _) => stops(frame, e),
        Frame::FairSubscript(_) => stops(frame, e),
    }
}
