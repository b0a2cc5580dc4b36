//! Braces, brackets and tuples, of which a later token says what row they are.

ghost use Rattle.reading_open_rows.specs.Does.{Does, frames_in, joined_view};
ghost use Rattle.reading_machine.specs.Machine.{braces_close, bracket_close, filter_close, function_close, is_subscript, join, on_joined, tuple_close};
ghost use Rattle.std.specs.Prelude.{◌≡◌, ◌∷◌, [], IfOk, List};
ghost use Rattle.reading_trees.specs.Trees.{MoreBounds, Name, NoBounds, NoTrees};

use crate::openers::begin_binding;
use base_core::{Names, NoMemory, Place, Text};
use reading_machine::{Action, Binder, Binding, Frame, Mode};
use reading_open_rows::{Joined, Stack, Stepped, begins_member, deliver, join, want};
use reading_tokens::Symbol;
use reading_trees::{Bound, Bounds, Expr, Exprs, Node};
use std::alloc::Global;

/// A name and `\in` behind an opening bracket, with the places of the three.
#[derive(Drop)]
pub struct Member {
    pub at: Place,
    pub name: Text,
    pub name_at: Place,
    pub member_at: Place,
}

/// `{E :`, where E does not begin with a name and `\in`, is a map.
fn map_begins(alloc: Global, at: Place, elements: Exprs, e: Expr) -> Stepped
    ensures { (fs : List Frame) → Does result fs (braces_close Symbol.Colon at elements fs e) }
{
    if !elements.is_empty() {
        return Stepped::Stops;
    }
    if begins_member(&e) {
        return Stepped::Stops;
    }
    begin_binding(alloc, Binder::Map(at, e))
}

/// `{E, E` before a token that is no infix operator and no step.
pub fn braces_close(
    alloc: Global,
    symbol: Symbol,
    at: Place,
    mut elements: Exprs,
    stack: &mut Stack,
    e: Expr,
) -> Result<Stepped, NoMemory>
    ensures { IfOk result (λ r. Does r (frames_in stack.new) (braces_close symbol at elements (frames_in stack.old) e)) }
{
    match symbol {
        Symbol::Comma => {
            elements.push(e)?;
            want(stack, Frame::Braces(at, elements))
        }
        Symbol::CloseBrace => {
            elements.push(e)?;
            let node = Node::SetOf(elements);
            Ok(Stepped::Reads(Mode::Have(Expr::new(alloc, at, node)?)))
        }
        Symbol::Colon => Ok(map_begins(alloc, at, elements, e)),
        _ => Ok(Stepped::Stops),
    }
}

/// `[E` before such a token that is no word.
pub fn bracket_close(
    symbol: Symbol,
    at: Place,
    stack: &mut Stack,
    e: Expr,
) -> Result<Stepped, NoMemory>
    ensures { IfOk result (λ r. Does r (frames_in stack.new) (bracket_close symbol at (frames_in stack.old) e)) }
{
    match symbol {
        Symbol::Arrow => want(stack, Frame::FunctionRange(at, e)),
        Symbol::CloseBracketSubscript => {
            Ok(Stepped::Reads(Mode::SubscriptStart(Action::Box, at, e)))
        }
        _ => Ok(Stepped::Stops),
    }
}

/// The name and `\in` of braces or brackets before an expression, where they are its first operand.
pub fn join_member(alloc: Global, member: Member, e: Expr) -> Result<Joined, NoMemory>
    ensures { IfOk result (λ j. joined_view j ≡ join (Name member.name_at member.name) member.member_at e) }
{
    let node = Node::Name(member.name);
    let name = Expr::new(alloc, member.name_at, node)?;
    join(alloc, e, name, member.member_at)
}

/// `{x \in E` where it is the beginning of an element, before `,` or `}`.
fn element_closes(
    alloc: Global,
    symbol: Symbol,
    member: Member,
    stack: &mut Stack,
    e: Expr,
) -> Result<Stepped, NoMemory>
    ensures { IfOk result (λ r. Does r (frames_in stack.new) (on_joined (join (Name member.name_at member.name) member.member_at e) member.member_at (λ x. braces_close symbol member.at NoTrees (frames_in stack.old) x))) }
{
    let at = member.at;
    let q = member.member_at;
    match join_member(alloc, member, e)? {
        Joined::Joins(whole) => braces_close(alloc, symbol, at, Exprs::new(alloc), stack, whole),
        Joined::Meets(p) => Ok(Stepped::Clashes(q, p)),
    }
}

/// `{x \in E`: before `:` a filter, else an element.
pub fn filter_close(
    alloc: Global,
    symbol: Symbol,
    member: Member,
    stack: &mut Stack,
    e: Expr,
) -> Result<Stepped, NoMemory>
    ensures { IfOk result (λ r. Does r (frames_in stack.new) (filter_close symbol member.at member.name member.name_at member.member_at (frames_in stack.old) e)) }
{
    match symbol {
        Symbol::Colon => want(stack, Frame::FilterTest(member.at, member.name, e)),
        Symbol::Comma => element_closes(alloc, Symbol::Comma, member, stack, e),
        Symbol::CloseBrace => element_closes(alloc, Symbol::CloseBrace, member, stack, e),
        _ => Ok(Stepped::Stops),
    }
}

/// The bounds that begin with one name over a set.
fn first_bound(alloc: Global, name: Text, set: Expr) -> Result<Bounds, NoMemory>
    ensures { IfOk result (λ bs. bs ≡ MoreBounds NoBounds (name ∷ []) set) }
{
    let mut names = Names::new(alloc);
    names.push(name)?;
    let mut bounds = Bounds::new(alloc);
    bounds.push(Bound { names, set })?;
    Ok(bounds)
}

/// `[x \in E` where it is the beginning of an expression, before `->` or `]_`.
fn operand_closes(
    alloc: Global,
    symbol: Symbol,
    member: Member,
    stack: &mut Stack,
    e: Expr,
) -> Result<Stepped, NoMemory>
    ensures { IfOk result (λ r. Does r (frames_in stack.new) (on_joined (join (Name member.name_at member.name) member.member_at e) member.member_at (λ x. bracket_close symbol member.at (frames_in stack.old) x))) }
{
    let at = member.at;
    let q = member.member_at;
    match join_member(alloc, member, e)? {
        Joined::Joins(whole) => bracket_close(symbol, at, stack, whole),
        Joined::Meets(p) => Ok(Stepped::Clashes(q, p)),
    }
}

/// `[x \in E`: before `,` and `|->` a bound of a function, else an expression.
pub fn function_close(
    alloc: Global,
    symbol: Symbol,
    member: Member,
    stack: &mut Stack,
    e: Expr,
) -> Result<Stepped, NoMemory>
    ensures { IfOk result (λ r. Does r (frames_in stack.new) (function_close symbol member.at member.name member.name_at member.member_at (frames_in stack.old) e)) }
{
    match symbol {
        Symbol::Comma => {
            let bounds = first_bound(alloc, member.name, e)?;
            let binder = Binder::Function(member.at);
            let binding = Binding { binder, bounds };
            Ok(Stepped::Reads(Mode::BoundName(binding, Names::new(alloc))))
        }
        Symbol::MapsTo => {
            let bounds = first_bound(alloc, member.name, e)?;
            want(stack, Frame::FunctionBody(member.at, bounds))
        }
        Symbol::Arrow => operand_closes(alloc, Symbol::Arrow, member, stack, e),
        Symbol::CloseBracketSubscript => {
            operand_closes(alloc, Symbol::CloseBracketSubscript, member, stack, e)
        }
        _ => Ok(Stepped::Stops),
    }
}

fn is_subscript(stack: &Stack) -> bool
    ensures { result ≡ is_subscript (frames_in stack.now) }
{
    match stack.frames.last() {
        Some(Frame::Subscript(_, _, _)) => true,
        Some(Frame::FairSubscript(_)) => true,
        _ => false,
    }
}

/// `<<E>>_` is an action where it is no subscript itself.
fn action_ends(at: Place, items: &Exprs, stack: &Stack, e: Expr) -> Stepped
    ensures { Does result (frames_in stack.now) (tuple_close Symbol.CloseTupleSubscript at items.now (frames_in stack.now) e) }
{
    if !items.is_empty() {
        return Stepped::Stops;
    }
    if is_subscript(stack) {
        return Stepped::Stops;
    }
    Stepped::Reads(Mode::SubscriptStart(Action::Angle, at, e))
}

/// `<<E, E`.
pub fn tuple_close(
    alloc: Global,
    symbol: Symbol,
    at: Place,
    mut items: Exprs,
    stack: &mut Stack,
    e: Expr,
) -> Result<Stepped, NoMemory>
    ensures { IfOk result (λ r. Does r (frames_in stack.new) (tuple_close symbol at items (frames_in stack.old) e)) }
{
    match symbol {
        Symbol::Comma => {
            items.push(e)?;
            want(stack, Frame::Tuple(at, items))
        }
        Symbol::CloseTuple => {
            items.push(e)?;
            let node = Node::Tuple(items);
            deliver(alloc, stack, Expr::new(alloc, at, node)?)
        }
        Symbol::CloseTupleSubscript => Ok(action_ends(at, &items, stack, e)),
        _ => Ok(Stepped::Stops),
    }
}
