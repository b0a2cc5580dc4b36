//! What a token opens, continues and finishes.

ghost use Rattle.std.specs.Prelude.{◌≡◌};
ghost use Rattle.reading_trees.specs.Opens.{symbol_bullet, bullet_of, word_wants, symbol_wants, wants_operand, word_opens, symbol_opens, opened_by, word_belongs, symbol_belongs, belongs, word_finishes, symbol_finishes, finishes, is_end, same_bullet, has_bullet};

use reading_tokens::{Kind, Symbol, Word};
use reading_trees::{Bullet, Construct, Open};

fn symbol_bullet(symbol: Symbol) -> Option<Bullet>
    ensures { result ≡ symbol_bullet symbol }
{
    match symbol {
        Symbol::And => Some(Bullet::And),
        Symbol::Or => Some(Bullet::Or),
        _ => None,
    }
}

/// The bullet that a token would be where an operand is expected.
pub fn bullet_of(kind: &Kind) -> Option<Bullet>
    ensures { result ≡ bullet_of kind.now }
{
    match kind {
        Kind::Symbol(symbol) => symbol_bullet(*symbol),
        _ => None,
    }
}

fn same_bullet(a: Bullet, b: Bullet) -> bool
    ensures { result ≡ same_bullet a b }
{
    match (a, b) {
        (Bullet::And, Bullet::And) => true,
        (Bullet::Or, Bullet::Or) => true,
        _ => false,
    }
}

/// Whether a token's bullet, if it has one, is that of a list.
pub fn has_bullet(bullet: Option<Bullet>, list: Bullet) -> bool
    ensures { result ≡ has_bullet bullet list }
{
    match bullet {
        Some(bullet) => same_bullet(bullet, list),
        None => false,
    }
}

fn word_wants(word: Word) -> bool
    ensures { result ≡ word_wants word }
{
    !matches!(
        word,
        Word::True | Word::False | Word::Boolean | Word::String
    )
}

fn symbol_wants(symbol: Symbol) -> bool
    ensures { result ≡ symbol_wants symbol }
{
    !matches!(
        symbol,
        Symbol::At
            | Symbol::Prime
            | Symbol::CloseParenthesis
            | Symbol::CloseBracket
            | Symbol::CloseBrace
            | Symbol::CloseTuple
    )
}

/// Whether an operand is expected behind a token.
pub fn wants_operand(kind: &Kind) -> bool
    ensures { result ≡ wants_operand kind.now }
{
    match kind {
        Kind::Name(_) | Kind::Number(_) | Kind::Str(_) => false,
        Kind::Word(word) => word_wants(*word),
        Kind::Symbol(symbol) => symbol_wants(*symbol),
        _ => true,
    }
}

fn word_opens(word: Word) -> Option<Open>
    ensures { result ≡ word_opens word }
{
    match word {
        Word::If => Some(Open::Inside(Construct::If)),
        Word::Let => Some(Open::Inside(Construct::Let)),
        Word::Case => Some(Open::Case),
        Word::Choose => Some(Open::Inside(Construct::Binder)),
        _ => None,
    }
}

fn symbol_opens(symbol: Symbol) -> Option<Open>
    ensures { result ≡ symbol_opens symbol }
{
    match symbol {
        Symbol::OpenParenthesis => Some(Open::Inside(Construct::Parentheses)),
        Symbol::OpenBracket => Some(Open::Inside(Construct::Brackets)),
        Symbol::OpenBrace => Some(Open::Inside(Construct::Braces)),
        Symbol::OpenTuple => Some(Open::Inside(Construct::Tuple)),
        Symbol::ForAll | Symbol::Exists => Some(Open::Inside(Construct::Binder)),
        _ => None,
    }
}

/// The construct that a token opens.
pub fn opened_by(kind: &Kind) -> Option<Open>
    ensures { result ≡ opened_by kind.now }
{
    match kind {
        Kind::Word(word) => word_opens(*word),
        Kind::Symbol(symbol) => symbol_opens(*symbol),
        _ => None,
    }
}

fn word_belongs(word: Word, around: Open) -> bool
    ensures { result ≡ word_belongs word around }
{
    match word {
        Word::Then | Word::Else => matches!(around, Open::Inside(Construct::If)),
        Word::In => matches!(around, Open::Inside(Construct::Let)),
        Word::Except => matches!(around, Open::Inside(Construct::Brackets)),
        _ => false,
    }
}

fn symbol_belongs(operand: bool, symbol: Symbol, around: Open) -> bool
    ensures { result ≡ symbol_belongs operand symbol around }
{
    match symbol {
        Symbol::CloseParenthesis => matches!(around, Open::Inside(Construct::Parentheses)),
        Symbol::CloseBracket | Symbol::CloseBracketSubscript | Symbol::MapsTo => {
            matches!(around, Open::Inside(Construct::Brackets))
        }
        Symbol::CloseBrace => matches!(around, Open::Inside(Construct::Braces)),
        Symbol::CloseTuple | Symbol::CloseTupleSubscript => {
            matches!(around, Open::Inside(Construct::Tuple))
        }
        Symbol::Arrow => matches!(around, Open::Case | Open::Inside(Construct::Brackets)),
        Symbol::Always => !operand && matches!(around, Open::Case),
        Symbol::Comma => matches!(
            around,
            Open::Inside(
                Construct::Parentheses
                    | Construct::Brackets
                    | Construct::Braces
                    | Construct::Tuple
                    | Construct::Binder
            )
        ),
        Symbol::Colon => matches!(
            around,
            Open::Inside(Construct::Binder | Construct::Braces | Construct::Brackets)
        ),
        _ => false,
    }
}

/// Whether a token is a closing token of an open construct.
pub fn belongs(operand: bool, kind: &Kind, around: Open) -> bool
    ensures { result ≡ belongs operand kind.now around }
{
    match kind {
        Kind::Word(word) => word_belongs(*word, around),
        Kind::Symbol(symbol) => symbol_belongs(operand, *symbol, around),
        _ => false,
    }
}

fn word_finishes(word: Word) -> bool
    ensures { result ≡ word_finishes word }
{
    matches!(word, Word::Else | Word::In)
}

fn symbol_finishes(symbol: Symbol, construct: Construct) -> bool
    ensures { result ≡ symbol_finishes symbol construct }
{
    match symbol {
        Symbol::CloseParenthesis
        | Symbol::CloseBracket
        | Symbol::CloseBracketSubscript
        | Symbol::CloseBrace
        | Symbol::CloseTuple
        | Symbol::CloseTupleSubscript => true,
        Symbol::Colon => matches!(construct, Construct::Binder),
        _ => false,
    }
}

/// Whether a closing token of a construct finishes it.
pub fn finishes(kind: &Kind, construct: Construct) -> bool
    ensures { result ≡ finishes kind.now construct }
{
    match kind {
        Kind::Word(word) => word_finishes(*word),
        Kind::Symbol(symbol) => symbol_finishes(*symbol, construct),
        _ => false,
    }
}

pub fn is_end(kind: &Kind) -> bool
    ensures { result ≡ is_end kind.now }
{
    matches!(kind, Kind::End)
}
