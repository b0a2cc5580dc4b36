//! Copies of tokens.

ghost use Rattle.std.specs.Prelude.{◌≡◌, IfOk};

use base_core::NoMemory;
use reading_tokens::{Kind, Token};

fn copy_of_kind(kind: &Kind) -> Result<Kind, NoMemory>
    ensures { IfOk result (λ k. k ≡ kind.now) }
{
    match kind {
        Kind::Name(text) => Ok(Kind::Name(text.copy()?)),
        Kind::Number(number) => Ok(Kind::Number(*number)),
        Kind::Str(text) => Ok(Kind::Str(text.copy()?)),
        Kind::Dashes => Ok(Kind::Dashes),
        Kind::Equals => Ok(Kind::Equals),
        Kind::Fair => Ok(Kind::Fair),
        Kind::Word(word) => Ok(Kind::Word(*word)),
        Kind::Symbol(symbol) => Ok(Kind::Symbol(*symbol)),
        Kind::Foreign(foreign) => Ok(Kind::Foreign(*foreign)),
        Kind::End => Ok(Kind::End),
    }
}

/// An equal token, which shares its text.
pub(crate) fn copy_of(token: &Token) -> Result<Token, NoMemory>
    ensures { IfOk result (λ t. t ≡ token.now) }
{
    Ok(Token {
        kind: copy_of_kind(&token.kind)?,
        place: token.place,
    })
}
