//! Copies of tokens.

ghost use Rattle.std.specs.Prelude.{◌≡◌, ◌++◌, IfOk, OnOk};

use reading_tokens::{Kind, Token};
use std::alloc::AllocError;

fn copy_kind(kind: &Kind) -> Result<Kind, AllocError>
    ensures { IfOk result (λ k. k ≡ kind.now) }
{
    match kind {
        Kind::Name(name) => Ok(Kind::Name(name.copy()?)),
        Kind::Number(number) => Ok(Kind::Number(*number)),
        Kind::Str(text) => Ok(Kind::Str(text.copy()?)),
        Kind::Dashes => Ok(Kind::Dashes),
        Kind::Equals => Ok(Kind::Equals),
        Kind::Fair => Ok(Kind::Fair),
        Kind::Word(word) => Ok(Kind::Word(*word)),
        Kind::Symbol(symbol) => Ok(Kind::Symbol(*symbol)),
        Kind::Foreign(foreign) => Ok(Kind::Foreign(*foreign)),
        Kind::End => Ok(Kind::End),
    }
}

fn copy_token(token: &Token) -> Result<Token, AllocError>
    ensures { IfOk result (λ t. t ≡ token.now) }
{
    let kind = copy_kind(&token.kind)?;
    Ok(Token {
        kind,
        place: token.place,
    })
}

/// Adds copies of the tokens at the end.
pub fn append_tokens(tokens: &mut Vec<Token>, more: &[Token]) -> Result<(), AllocError>
    ensures { OnOk result (tokens.new.items ≡ tokens.old.items ++ more.now) }
{
    for token in more {
        tokens.push(copy_token(token)?)?;
    }
    Ok(())
}
