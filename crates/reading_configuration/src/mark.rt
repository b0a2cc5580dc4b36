//! What a configuration takes a token for.

ghost use Rattle.std.specs.Prelude.{◌≡◌, IfOk};
ghost use Rattle.reading_configuration.specs.Marks.{mark_of, word_mark, symbol_mark};

use base_core::{Place, Text};
use reading_tokens::{Kind, Symbol, Token, Word};
use std::alloc::AllocError;

/// A token as a configuration takes it.
#[derive(Drop)]
pub(crate) enum Mark {
    /// A name, and where it stands.
    Name(Text, Place),
    Number(i64),
    Str(Text),
    Truth(bool),
    /// `CONSTANT` or `CONSTANTS`
    Constants,
    /// `=`
    Equal,
    /// `<-`
    Replaces,
    /// `-`
    Minus,
    /// `{`
    Open,
    /// `}`
    Close,
    /// `,`
    Comma,
    End,
    /// A token that no configuration has.
    Other,
}

fn word_mark(word: Word) -> Mark
    ensures { result ≡ word_mark word }
{
    match word {
        Word::True => Mark::Truth(true),
        Word::False => Mark::Truth(false),
        Word::Constant => Mark::Constants,
        Word::Constants => Mark::Constants,
        _ => Mark::Other,
    }
}

fn symbol_mark(symbol: Symbol) -> Mark
    ensures { result ≡ symbol_mark symbol }
{
    match symbol {
        Symbol::Equal => Mark::Equal,
        Symbol::LeftArrow => Mark::Replaces,
        Symbol::Minus => Mark::Minus,
        Symbol::OpenBrace => Mark::Open,
        Symbol::CloseBrace => Mark::Close,
        Symbol::Comma => Mark::Comma,
        _ => Mark::Other,
    }
}

/// What a token is taken for.
pub(crate) fn mark_of(token: &Token) -> Result<Mark, AllocError>
    ensures { IfOk result (λ m. m ≡ mark_of token.now) }
{
    match &token.kind {
        Kind::Name(text) => Ok(Mark::Name(text.copy()?, token.place)),
        Kind::Number(number) => Ok(Mark::Number(*number)),
        Kind::Str(text) => Ok(Mark::Str(text.copy()?)),
        Kind::Dashes => Ok(Mark::Other),
        Kind::Equals => Ok(Mark::Other),
        Kind::Fair => Ok(Mark::Other),
        Kind::Word(word) => Ok(word_mark(*word)),
        Kind::Symbol(symbol) => Ok(symbol_mark(*symbol)),
        Kind::Foreign(_) => Ok(Mark::Other),
        Kind::End => Ok(Mark::End),
    }
}
