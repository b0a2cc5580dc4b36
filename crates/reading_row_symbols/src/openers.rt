//! Tokens where an expression is expected.

ghost use Rattle.reading_open_rows.specs.Does.{Does, frames_in};
ghost use Rattle.reading_machine.specs.Machine.{begin_binding, begins, symbol_begins, token_begins, word_begins};
ghost use Rattle.std.specs.Prelude.{◌≡◌, IfOk};
ghost use Rattle.reading_trees.specs.TreeViews.{node_view};

use base_core::{Names, NoMemory, Place};
use reading_machine::{Binder, Binding, Frame, Mode, Scope};
use reading_open_rows::{Stack, Stepped, want};
use reading_tokens::{Kind, Symbol, Word};
use reading_trees::{
    Arms, Bounds, BuiltinSet, Definitions, Expr, Laid, Node, PrefixOperator, Quantifier,
};
use std::alloc::Global;

/// A primary that is one token.
fn leaf(alloc: Global, at: Place, node: Node) -> Result<Stepped, NoMemory>
    ensures { IfOk result (λ r. r ≡ Stepped.Reads (Mode.Have (node_view at node))) }
{
    Ok(Stepped::Reads(Mode::Have(Expr::new(alloc, at, node)?)))
}

/// The first name of a binder is expected.
pub fn begin_binding(alloc: Global, binder: Binder) -> Stepped
    ensures { result ≡ Stepped.Reads (begin_binding binder) }
{
    let bounds = Bounds::new(alloc);
    let binding = Binding { binder, bounds };
    Stepped::Reads(Mode::BoundName(binding, Names::new(alloc)))
}

fn word_begins(alloc: Global, word: Word, at: Place, stack: &mut Stack) -> Result<Stepped, NoMemory>
    ensures { IfOk result (λ r. Does r (frames_in stack.new) (word_begins word at (frames_in stack.old))) }
{
    match word {
        Word::True => leaf(alloc, at, Node::Truth(true)),
        Word::False => leaf(alloc, at, Node::Truth(false)),
        Word::Boolean => leaf(alloc, at, Node::Builtin(BuiltinSet::Booleans)),
        Word::String => leaf(alloc, at, Node::Builtin(BuiltinSet::Strings)),
        Word::Unchanged => want(stack, Frame::Prefix(PrefixOperator::Unchanged, at)),
        Word::Enabled => want(stack, Frame::Prefix(PrefixOperator::Enabled, at)),
        Word::Subset => want(stack, Frame::Prefix(PrefixOperator::Powerset, at)),
        Word::Union => want(stack, Frame::Prefix(PrefixOperator::BigUnion, at)),
        Word::Domain => want(stack, Frame::Prefix(PrefixOperator::Domain, at)),
        Word::Choose => Ok(Stepped::Reads(Mode::ChooseName(at))),
        Word::If => want(stack, Frame::IfTest(at)),
        Word::Case => want(stack, Frame::CaseTest(at, Arms::new(alloc))),
        Word::Let => Ok(Stepped::Reads(Mode::DefinitionName(Scope::Let(
            at,
            Definitions::new(alloc),
        )))),
        _ => Ok(Stepped::Stops),
    }
}

fn symbol_begins(
    alloc: Global,
    symbol: Symbol,
    at: Place,
    stack: &mut Stack,
) -> Result<Stepped, NoMemory>
    ensures { IfOk result (λ r. Does r (frames_in stack.new) (symbol_begins symbol at (frames_in stack.old))) }
{
    match symbol {
        Symbol::At => leaf(alloc, at, Node::At),
        Symbol::OpenParenthesis => want(stack, Frame::Parenthesis(at)),
        Symbol::OpenBracket => Ok(Stepped::Reads(Mode::BracketStart(at))),
        Symbol::OpenBrace => Ok(Stepped::Reads(Mode::BraceStart(at))),
        Symbol::OpenTuple => Ok(Stepped::Reads(Mode::TupleStart(at))),
        Symbol::Not => want(stack, Frame::Prefix(PrefixOperator::Not, at)),
        Symbol::Always => want(stack, Frame::Prefix(PrefixOperator::Always, at)),
        Symbol::Eventually => want(stack, Frame::Prefix(PrefixOperator::Eventually, at)),
        Symbol::Minus => want(stack, Frame::Prefix(PrefixOperator::Negate, at)),
        Symbol::ForAll => Ok(begin_binding(alloc, Binder::Quantifier(Quantifier::ForAll, at))),
        Symbol::Exists => Ok(begin_binding(alloc, Binder::Quantifier(Quantifier::Exists, at))),
        _ => Ok(Stepped::Stops),
    }
}

fn token_begins(
    alloc: Global,
    kind: &Kind,
    at: Place,
    stack: &mut Stack,
) -> Result<Stepped, NoMemory>
    ensures { IfOk result (λ r. Does r (frames_in stack.new) (token_begins kind.now at (frames_in stack.old))) }
{
    match kind {
        Kind::Name(name) => leaf(alloc, at, Node::Name(name.copy()?)),
        Kind::Number(number) => leaf(alloc, at, Node::Number(*number)),
        Kind::Str(text) => leaf(alloc, at, Node::Str(text.copy()?)),
        Kind::Fair => Ok(Stepped::Reads(Mode::FairStart(at))),
        Kind::Word(word) => word_begins(alloc, *word, at, stack),
        Kind::Symbol(symbol) => symbol_begins(alloc, *symbol, at, stack),
        _ => Ok(Stepped::Stops),
    }
}

/// What a token does where an expression is expected.
pub fn begins(alloc: Global, laid: &Laid, stack: &mut Stack) -> Result<Stepped, NoMemory>
    ensures { IfOk result (λ r. Does r (frames_in stack.new) (begins laid.now (frames_in stack.old))) }
{
    match laid {
        Laid::Plain(token) => token_begins(alloc, &token.kind, token.place, stack),
        Laid::ListOpen(bullet, at) => Ok(Stepped::Reads(Mode::ListStart(*bullet, *at))),
        _ => Ok(Stepped::Stops),
    }
}
