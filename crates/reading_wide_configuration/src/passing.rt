//! What is passed over among the tokens of a configuration.

ghost use Rattle.std.specs.Prelude.{◌≡◌, ◌++◌, IfOk};
ghost use Rattle.reading_wide_configuration.specs.Passed.{begins_list, begins_sign, begun, bound_in, is_listed, is_sign, line_at, lines_at, remaining, told, word_at};

use crate::bounds::{Bound, begins_any, bound_of, line};
use crate::copies::copy_of;
use base_core::{Names, NoMemory};
use reading_tokens::{Kind, Symbol, Token};
use std::alloc::Global;

/// The tokens that remain, and what is told of those that were passed over.
#[derive(Drop)]
pub(crate) struct Passed {
    pub(crate) tokens: Vec<Token>,
    pub(crate) lines: Names,
}

/// What the word says of a search, where the token is such a word.
fn bound_in(kind: &Kind) -> Option<Bound>
    ensures { result ≡ bound_in kind.now }
{
    match kind {
        Kind::Name(text) => bound_of(text.as_str()),
        _ => None,
    }
}

/// Whether the token is a name that begins no statement.
fn is_listed(kind: &Kind) -> bool
    ensures { result ≡ is_listed kind.now }
{
    match kind {
        Kind::Name(text) => !begins_any(text.as_str()),
        _ => false,
    }
}

/// Whether the token is the sign behind a constant's name.
fn is_sign(kind: &Kind) -> bool
    ensures { result ≡ is_sign kind.now }
{
    match kind {
        Kind::Symbol(Symbol::Equal) => true,
        Kind::Symbol(Symbol::LeftArrow) => true,
        _ => false,
    }
}

fn begins_sign(tokens: &[Token]) -> bool
    ensures { result ≡ begins_sign tokens.now }
{
    match tokens.split_first() {
        Some((token, _)) => is_sign(&token.kind),
        None => false,
    }
}

/// Whether the first of the names behind a word comes next, and is no constant's name.
fn begins_list(tokens: &[Token]) -> bool
    ensures { result ≡ begins_list tokens.now }
{
    match tokens.split_first() {
        Some((token, behind)) => is_listed(&token.kind) && !begins_sign(behind),
        None => false,
    }
}

/// What the statement says of a search that begins at the token, if one does.
fn begun(token: &Token, behind: &[Token]) -> Option<Bound>
    ensures { result ≡ begun token.now behind.now }
{
    if begins_list(behind) {
        bound_in(&token.kind)
    } else {
        None
    }
}

/// What the statement says that the token is in, where one is passed over. `inside` is what that of the token before it says.
fn word_at(inside: Option<Bound>, token: &Token, behind: &[Token]) -> Option<Bound>
    ensures { result ≡ word_at inside token.now behind.now }
{
    if is_listed(&token.kind) {
        inside
    } else {
        begun(token, behind)
    }
}

/// Adds the line of a name behind such a word.
fn tell_name(alloc: Global, bound: Bound, kind: &Kind, lines: &mut Names) -> Result<(), NoMemory>
    ensures { IfOk result (λ done. lines.new ≡ lines.old ++ line_at bound kind.now) }
{
    match kind {
        Kind::Name(text) => {
            if begins_any(text.as_str()) {
                return Ok(());
            }
            let line = line(alloc, bound, text)?;
            lines.push(line)?;
            Ok(())
        }
        _ => Ok(()),
    }
}

/// Adds the line of a token that is passed over as a name.
fn tell(
    alloc: Global,
    inside: Option<Bound>,
    token: &Token,
    lines: &mut Names,
) -> Result<(), NoMemory>
    ensures { IfOk result (λ done. lines.new ≡ lines.old ++ lines_at inside token.now) }
{
    match inside {
        Some(bound) => tell_name(alloc, bound, &token.kind, lines),
        None => Ok(()),
    }
}

/// Without what bounds or folds a search, and what is told of it.
pub(crate) fn pass_over(alloc: Global, tokens: &[Token]) -> Result<Passed, NoMemory>
    ensures tokens { IfOk result (λ p. p.tokens.items ≡ remaining tokens.now) }
    ensures lines { IfOk result (λ p. p.lines ≡ told tokens.now) }
{
    let mut left = Vec::new(alloc);
    let mut lines = Names::new(alloc);
    let mut inside = None;
    let mut rest = tokens;
    while let Some((token, behind)) = rest.split_first() {
        tell(alloc, inside, token, &mut lines)?;
        inside = word_at(inside, token, behind);
        if inside.is_none() {
            left.push(copy_of(token)?)?;
        }
        rest = behind;
    }
    Ok(Passed {
        tokens: left,
        lines,
    })
}
