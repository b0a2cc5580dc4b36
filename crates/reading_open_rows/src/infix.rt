//! Operators and their operands.

ghost use Rattle.reading_open_rows.specs.Does.{Does, frames_in};
ghost use Rattle.reading_open_rows.specs.Passes.{passes};
ghost use Rattle.reading_machine.specs.Machine.{above, folded, goes_on, infix_of_symbol, infix_step, operator_number, want};
ghost use Rattle.std.specs.Prelude.{◌≡◌, ◌∷◌, IfOk, false, true};
ghost use Rattle.reading_trees.specs.Grammar.{is_member};
ghost use Rattle.reading_trees.specs.Precedence.{chains, infix_range, prefix_range};
ghost use Rattle.reading_trees.specs.Trees.{First};

use crate::folding::folded;
use crate::stack::{Stack, pop, push, want};
use crate::stepped::Stepped;
use base_core::{NoMemory, Place};
use reading_machine::Frame;
use reading_tokens::Symbol;
use reading_trees::{Expr, InfixOperator, Operand, Operands, PrefixOperator};
use std::alloc::Global;

/// The operator between operands that a symbol is.
pub fn infix_of_symbol(symbol: Symbol) -> Option<InfixOperator>
    ensures { result ≡ infix_of_symbol symbol }
{
    match symbol {
        Symbol::Implies => Some(InfixOperator::Implies),
        Symbol::Equivalent => Some(InfixOperator::Equivalent),
        Symbol::LeadsTo => Some(InfixOperator::LeadsTo),
        Symbol::And => Some(InfixOperator::And),
        Symbol::Or => Some(InfixOperator::Or),
        Symbol::Equal => Some(InfixOperator::Equal),
        Symbol::NotEqual => Some(InfixOperator::NotEqual),
        Symbol::Less => Some(InfixOperator::Less),
        Symbol::Greater => Some(InfixOperator::Greater),
        Symbol::LessOrEqual => Some(InfixOperator::LessOrEqual),
        Symbol::GreaterOrEqual => Some(InfixOperator::GreaterOrEqual),
        Symbol::Member => Some(InfixOperator::Member),
        Symbol::NotMember => Some(InfixOperator::NotMember),
        Symbol::SubsetOrEqual => Some(InfixOperator::SubsetOrEqual),
        Symbol::MergedFunctions => Some(InfixOperator::MergedFunctions),
        Symbol::SingleFunction => Some(InfixOperator::SingleFunction),
        Symbol::Union => Some(InfixOperator::Union),
        Symbol::Intersection => Some(InfixOperator::Intersection),
        Symbol::Difference => Some(InfixOperator::Difference),
        Symbol::Interval => Some(InfixOperator::Interval),
        Symbol::Plus => Some(InfixOperator::Plus),
        Symbol::Remainder => Some(InfixOperator::Remainder),
        Symbol::Minus => Some(InfixOperator::Minus),
        Symbol::CartesianProduct => Some(InfixOperator::CartesianProduct),
        Symbol::Times => Some(InfixOperator::Times),
        Symbol::Concatenation => Some(InfixOperator::Concatenation),
        Symbol::Quotient => Some(InfixOperator::Quotient),
        Symbol::Power => Some(InfixOperator::Power),
        _ => None,
    }
}

fn infix_low(o: InfixOperator) -> u8
    ensures { result ≡ (infix_range o).low }
{
    match o {
        InfixOperator::Implies => 1,
        InfixOperator::Equivalent | InfixOperator::LeadsTo => 2,
        InfixOperator::And | InfixOperator::Or => 3,
        InfixOperator::Equal
        | InfixOperator::NotEqual
        | InfixOperator::Less
        | InfixOperator::Greater
        | InfixOperator::LessOrEqual
        | InfixOperator::GreaterOrEqual
        | InfixOperator::Member
        | InfixOperator::NotMember
        | InfixOperator::SubsetOrEqual => 5,
        InfixOperator::MergedFunctions => 6,
        InfixOperator::SingleFunction => 7,
        InfixOperator::Union | InfixOperator::Intersection | InfixOperator::Difference => 8,
        InfixOperator::Interval => 9,
        InfixOperator::Plus | InfixOperator::Remainder | InfixOperator::CartesianProduct => 10,
        InfixOperator::Minus => 11,
        InfixOperator::Times | InfixOperator::Concatenation | InfixOperator::Quotient => 13,
        InfixOperator::Power => 14,
    }
}

fn infix_high(o: InfixOperator) -> u8
    ensures { result ≡ (infix_range o).high }
{
    match o {
        InfixOperator::Remainder => 11,
        InfixOperator::CartesianProduct => 13,
        _ => infix_low(o),
    }
}

fn prefix_low(o: PrefixOperator) -> u8
    ensures { result ≡ (prefix_range o).low }
{
    match o {
        PrefixOperator::Not
        | PrefixOperator::Unchanged
        | PrefixOperator::Enabled
        | PrefixOperator::Always
        | PrefixOperator::Eventually => 4,
        PrefixOperator::Powerset | PrefixOperator::BigUnion => 8,
        PrefixOperator::Domain => 9,
        PrefixOperator::Negate => 12,
    }
}

fn prefix_high(o: PrefixOperator) -> u8
    ensures { result ≡ (prefix_range o).high }
{
    match o {
        PrefixOperator::Unchanged
        | PrefixOperator::Enabled
        | PrefixOperator::Always
        | PrefixOperator::Eventually => 15,
        _ => prefix_low(o),
    }
}

/// Whether the range of one operator lies wholly above that of the other.
pub fn infix_above(o: InfixOperator, q: InfixOperator) -> bool
    ensures { result ≡ above (infix_range o) (infix_range q) }
{
    infix_high(q) < infix_low(o)
}

fn prefix_above(o: PrefixOperator, q: InfixOperator) -> bool
    ensures { result ≡ above (prefix_range o) (infix_range q) }
{
    infix_high(q) < prefix_low(o)
}

fn above_prefix(q: InfixOperator, o: PrefixOperator) -> bool
    ensures { result ≡ above (infix_range q) (prefix_range o) }
{
    prefix_high(o) < infix_low(q)
}

fn operator_number(o: InfixOperator) -> u8
    ensures { result ≡ operator_number o }
{
    match o {
        InfixOperator::Implies => 0,
        InfixOperator::Equivalent => 1,
        InfixOperator::LeadsTo => 2,
        InfixOperator::And => 3,
        InfixOperator::Or => 4,
        InfixOperator::Equal => 5,
        InfixOperator::NotEqual => 6,
        InfixOperator::Less => 7,
        InfixOperator::Greater => 8,
        InfixOperator::LessOrEqual => 9,
        InfixOperator::GreaterOrEqual => 10,
        InfixOperator::Member => 11,
        InfixOperator::NotMember => 12,
        InfixOperator::SubsetOrEqual => 13,
        InfixOperator::MergedFunctions => 14,
        InfixOperator::SingleFunction => 15,
        InfixOperator::Union => 16,
        InfixOperator::Intersection => 17,
        InfixOperator::Difference => 18,
        InfixOperator::Interval => 19,
        InfixOperator::Plus => 20,
        InfixOperator::Remainder => 21,
        InfixOperator::Minus => 22,
        InfixOperator::CartesianProduct => 23,
        InfixOperator::Times => 24,
        InfixOperator::Concatenation => 25,
        InfixOperator::Quotient => 26,
        InfixOperator::Power => 27,
    }
}

fn chains(o: InfixOperator) -> bool
    ensures { result ≡ chains o }
{
    match o {
        InfixOperator::And
        | InfixOperator::Or
        | InfixOperator::MergedFunctions
        | InfixOperator::Union
        | InfixOperator::Intersection
        | InfixOperator::Plus
        | InfixOperator::Minus
        | InfixOperator::Times
        | InfixOperator::Concatenation
        | InfixOperator::CartesianProduct => true,
        _ => false,
    }
}

fn goes_on(o: InfixOperator, q: InfixOperator) -> bool
    ensures { result ≡ goes_on o q }
{
    operator_number(o) == operator_number(q) && chains(o)
}

/// Whether an infix operator goes out over a frame, the operator of which lies above it.
fn passes(q: InfixOperator, frame: &Frame) -> bool
    ensures { result ≡ passes q frame.now }
{
    match frame {
        Frame::Prefix(o, _) => prefix_above(*o, q),
        Frame::Infix(o, _, _) => infix_above(*o, q),
        _ => false,
    }
}

/// A new chain with its first operand.
fn begin_chain(
    alloc: Global,
    q: InfixOperator,
    at: Place,
    stack: &mut Stack,
    first: Expr,
) -> Result<Stepped, NoMemory>
    ensures { IfOk result (λ r. Does r (frames_in stack.new) (want (Frame.Infix q (First first) at ∷ frames_in stack.old))) }
{
    let operands = Operands::new(alloc, first)?;
    want(stack, Frame::Infix(q, operands, at))
}

/// An infix operator at a prefix operator that it does not go out over.
fn meet_prefix(
    alloc: Global,
    q: InfixOperator,
    at: Place,
    o: PrefixOperator,
    p: Place,
    stack: &mut Stack,
    last: Expr,
) -> Result<Stepped, NoMemory>
    requires { above (prefix_range o) (infix_range q) ≡ false }
    ensures { IfOk result (λ r. Does r (frames_in stack.new) (infix_step q at (Frame.Prefix o p ∷ frames_in stack.old) last)) }
{
    if above_prefix(q, o) {
        push(stack, Frame::Prefix(o, p))?;
        return begin_chain(alloc, q, at, stack, last);
    }
    Ok(Stepped::Clashes(p, at))
}

/// An infix operator at a chain that it does not go out over.
fn meet_chain(
    alloc: Global,
    q: InfixOperator,
    at: Place,
    chain: (InfixOperator, Operands, Place),
    stack: &mut Stack,
    last: Expr,
) -> Result<Stepped, NoMemory>
    requires { above (infix_range chain.0) (infix_range q) ≡ false }
    ensures { IfOk result (λ r. Does r (frames_in stack.new) (infix_step q at (Frame.Infix chain.0 chain.1 chain.2 ∷ frames_in stack.old) last)) }
{
    let (o, mut operands, p) = chain;
    if infix_above(q, o) {
        push(stack, Frame::Infix(o, operands, p))?;
        return begin_chain(alloc, q, at, stack, last);
    }
    if goes_on(o, q) {
        operands.push(Operand { at: p, value: last })?;
        return want(stack, Frame::Infix(o, operands, at));
    }
    Ok(Stepped::Clashes(p, at))
}

/// An infix operator at the frame that it does not go out over.
fn meet(
    alloc: Global,
    q: InfixOperator,
    at: Place,
    frame: Frame,
    stack: &mut Stack,
    last: Expr,
) -> Result<Stepped, NoMemory>
    requires { passes q frame ≡ false }
    ensures { IfOk result (λ r. Does r (frames_in stack.new) (infix_step q at (frame ∷ frames_in stack.old) last)) }
{
    match frame {
        Frame::Prefix(o, p) => meet_prefix(alloc, q, at, o, p, stack, last),
        Frame::Infix(o, operands, p) => meet_chain(alloc, q, at, (o, operands, p), stack, last),
        other => {
            push(stack, other)?;
            begin_chain(alloc, q, at, stack, last)
        }
    }
}

/// An infix operator behind an operand: out along the right edge, over each operator that lies above it.
pub fn infix_step(
    alloc: Global,
    q: InfixOperator,
    at: Place,
    stack: &mut Stack,
    last: Expr,
) -> Result<Stepped, NoMemory>
    ensures { IfOk result (λ r. Does r (frames_in stack.new) (infix_step q at (frames_in stack.old) last)) }
{
    let mut operand = last;
    while let Some(frame) = pop(stack) {
        if !passes(q, &frame) {
            return meet(alloc, q, at, frame, stack, operand);
        }
        operand = folded(alloc, frame, operand)?;
    }
    begin_chain(alloc, q, at, stack, operand)
}
