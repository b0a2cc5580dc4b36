//! Which variables a term reads of the state that is made.

ghost use Rattle.std.specs.Prelude.{◌≡◌, ◌&&◌, ◌<◌, ◌==◌, ◌≤◌, ℕ, IfOk, Some, false, if◌then◌else◌, length, slice_get, true};
ghost use Rattle.names_terms.specs.TermViews.{node_view};
ghost use Rattle.names_term_parts.specs.Waiting.{waiting};
ghost use Rattle.names_term_parts.specs.Slots.{UsesSmaller};
ghost use Rattle.actions_early_reads.specs.Levels.{is_constant};
ghost use Rattle.actions_early_reads.specs.Keeping.{AreKept, TellsAll, TellsOwn, TellsReads};
ghost use Rattle.actions_early_reads.specs.Sets.{shown};

use crate::sets::{none, united, with};
use base_core::NoMemory;
use names_term_parts::{Pending, push, push_parts};
use names_terms::{Level, Operators, Term, TermNode};
use states_core::VarSet;
use std::alloc::Global;

/// What the body of a definition reads where it does not stand under a prime, and where it does.
#[derive(Clone, Copy, Drop)]
pub struct Reads {
    pub plain: VarSet,
    pub primed: VarSet,
}

/// Whether a level is that of constants.
pub fn is_constant(level: Level) -> bool
    ensures { result ≡ is_constant level }
{
    match level {
        Level::Constant => true,
        Level::State | Level::Action | Level::Temporal => false,
    }
}

fn reads_variable(primed: bool, variable: u16) -> VarSet
    ensures { variable < 64 → shown result ≡ (λ x. primed && (variable == x)) }
{
    if primed && variable < 64 {
        return with(none(), variable);
    }
    none()
}

fn reads_use(kept: &[Reads], primed: bool, number: usize) -> VarSet
    ensures { (r : Reads) → slice_get kept.now number ≡ Some r → shown result ≡ shown (if primed then r.primed else r.plain) }
{
    match kept.get(number) {
        Some(reads) => reads_so(*reads, primed),
        None => none(),
    }
}

fn reads_so(reads: Reads, primed: bool) -> VarSet
    ensures { result ≡ (if primed then reads.primed else reads.plain) }
{
    if primed {
        return reads.primed;
    }
    reads.plain
}

/// What a row reads itself, or by the definition that it uses.
fn own_reads(kept: &[Reads], primed: bool, node: &TermNode) -> VarSet
    ensures { TellsOwn kept.now primed (node_view node.now) (shown result) }
{
    match node {
        TermNode::Variable(variable) => reads_variable(primed, variable.0),
        TermNode::Use(number, _) => reads_use(kept, primed, number.0),
        TermNode::Known(_)
        | TermNode::Named(_)
        | TermNode::Slot(_)
        | TermNode::Standard(_, _)
        | TermNode::Parenthesized(_)
        | TermNode::Scoped(_, _)
        | TermNode::All(_)
        | TermNode::Any(_)
        | TermNode::Prefix(_, _)
        | TermNode::Infix(_, _, _)
        | TermNode::Postfix(_, _, _)
        | TermNode::SetOf(_)
        | TermNode::Filter(_, _)
        | TermNode::Map(_, _)
        | TermNode::Tuple(_)
        | TermNode::Function(_, _)
        | TermNode::FunctionSet(_, _)
        | TermNode::Record(_)
        | TermNode::RecordSet(_)
        | TermNode::Except(_, _)
        | TermNode::Quantified(_, _, _)
        | TermNode::Choose(_, _)
        | TermNode::If(_, _, _)
        | TermNode::Case(_, None)
        | TermNode::Case(_, Some(_))
        | TermNode::BoxAction(_, _)
        | TermNode::AngleAction(_, _)
        | TermNode::Fairness(_, _) => none(),
    }
}

/// What the terms on a stack read, over what the definitions read.
pub fn reads_all<'a>(kept: &[Reads], stack: Vec<Pending<'a>>) -> Result<VarSet, NoMemory>
    ensures { IfOk result (λ s. TellsAll kept.now (waiting stack.entry.items) (shown s)) }
{
    let mut found = none();
    let mut stack = stack;
    while let Some(pending) = stack.pop() {
        let part = pending.term;
        if is_constant(part.level) {
            continue;
        }
        let node = &*part.node;
        let own = own_reads(kept, pending.primed, node);
        found = united(found, own);
        push_parts(&mut stack, pending.primed, node)?;
    }
    Ok(found)
}

/// What a term reads, under a prime or not, over what the definitions read.
pub fn reads_of(
    alloc: Global,
    kept: &[Reads],
    primed: bool,
    term: &Term,
) -> Result<VarSet, NoMemory>
    ensures { IfOk result (λ s. TellsReads kept.now primed term.now (shown s)) }
{
    let mut stack = Vec::new(alloc);
    push(&mut stack, primed, term)?;
    reads_all(kept, stack)
}

/// What each definition reads.
pub fn all_reads(alloc: Global, operators: &Operators) -> Result<Vec<Reads>, NoMemory>
    requires smaller { UsesSmaller operators.now }
    ensures whole { IfOk result (λ kept. length kept.items ≡ length operators.now) }
    ensures kept { IfOk result (λ kept. (v : ℕ) → v ≤ 64 → AreKept operators.now v kept.items) }
{
    let mut kept = Vec::new(alloc);
    for operator in operators.items() {
        let plain = reads_of(alloc, &kept, false, &operator.body)?;
        let primed = reads_of(alloc, &kept, true, &operator.body)?;
        kept.push(Reads { plain, primed })?;
    }
    Ok(kept)
}
