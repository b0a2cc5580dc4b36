//! One piece at the front of a text.

ghost use Rattle.std.specs.Prelude.{◌≡◌, ◌<◌, ◌≤◌, length, slice_index, IfOk, true, false};
ghost use Rattle.reading_tokens.specs.Spellings.{words, kind_in};
ghost use Rattle.reading_tokens.specs.Shapes.{is_digit, is_word_start, is_word, is_letter, each, number_shape, named_shape, IsPiece};
ghost use Rattle.reading_lexer.specs.Lexer.{InUtf8, IsOther, IsPlain, begins_base};

use crate::bytes;
use crate::comments::comment_end;
use crate::strings::{Quoted, text_of, unquote};
use reading_tokens::{
    Kind, LexKind, Shape, Symbol, Table, begins_fair, has_letter, is_digit, is_letter,
    is_word_start, kind_of,
};
use std::alloc::{AllocError, Global};

/// The number that digits spell.
fn number(digits: &[u8]) -> Shape
    requires { each is_digit digits.now ≡ true }
    ensures { result ≡ number_shape digits.now }
{
    let mut value: u64 = 0;
    for b in digits {
        let next = (value as u128) * 10 + ((*b - 48) as u128);
        if next >= 1 << 63 {
            return Shape::Bad(LexKind::NumberTooLarge);
        }
        value = next as u64;
    }
    Shape::Spelled(Kind::Number(value as i64))
}

/// The reserved word, foreign word or name that a word is.
fn named(alloc: Global, word: &[u8]) -> Result<Shape, AllocError>
    requires { each is_word word.now ≡ true }
    ensures { IfOk result (λ shape. shape ≡ named_shape (kind_in words word.now) word.now) }
{
    match kind_of(Table::Words, word) {
        Some(kind) => Ok(Shape::Spelled(kind)),
        None => {
            if has_letter(word) {
                Ok(Shape::Spelled(Kind::Name(text_of(alloc, word)?)))
            } else {
                Ok(Shape::Bad(LexKind::BadCharacter))
            }
        }
    }
}

/// What begins with a letter or `_`.
fn word(alloc: Global, text: &[u8]) -> Result<(Shape, usize), AllocError>
    requires some { 0 < length text.now }
    requires first { is_word_start (slice_index text.now 0) ≡ true }
    ensures { IfOk result (λ found. IsPiece text.now found.1 found.0) }
{
    if begins_fair(text) {
        return Ok((Shape::Spelled(Kind::Fair), 3));
    }
    let size = bytes::words(text);
    let shape = named(alloc, &text[..size])?;
    Ok((shape, size))
}

/// What begins with a quote.
fn string(alloc: Global, text: &[u8]) -> Result<(Shape, usize), AllocError>
    requires some { 0 < length text.now }
    requires first { slice_index text.now 0 ≡ 34 }
    requires inside { InUtf8 text.now }
    ensures { IfOk result (λ found. IsPiece text.now found.1 found.0) }
{
    match unquote(alloc, &text[1..])? {
        Quoted::Closed(content, size) => {
            let text = text_of(alloc, &content)?;
            Ok((Shape::Spelled(Kind::Str(text)), size + 1))
        }
        Quoted::Broken(why, size) => Ok((Shape::Bad(why), size + 1)),
    }
}

/// Whether a number of another base begins the text, behind its first byte.
fn begins_base(text: &[u8]) -> bool
    ensures { result ≡ begins_base text.now }
{
    match text {
        [_, c, d, ..] => bytes::is_base(*c) && is_digit(*d),
        _ => false,
    }
}

/// What begins with a backslash and a letter.
fn run(text: &[u8]) -> (Shape, usize)
    requires two { 2 ≤ length text.now }
    requires first { slice_index text.now 0 ≡ 92 }
    requires second { is_letter (slice_index text.now 1) ≡ true }
    ensures { IsPiece text.now result.1 result.0 }
{
    if begins_base(text) {
        return (Shape::Bad(LexKind::BadCharacter), 3);
    }
    let behind = &text[1..];
    let size = bytes::letters(behind);
    match kind_of(Table::Runs, &behind[..size]) {
        Some(kind) => (Shape::Spelled(kind), size + 1),
        None => (Shape::Spelled(Kind::Symbol(Symbol::Difference)), 1),
    }
}

/// What begins with a backslash.
fn backslash(text: &[u8]) -> (Shape, usize)
    requires some { 0 < length text.now }
    requires first { slice_index text.now 0 ≡ 92 }
    ensures { IsPiece text.now result.1 result.0 }
{
    if text.len() < 2 {
        return (Shape::Spelled(Kind::Symbol(Symbol::Difference)), 1);
    }
    let second = text[1];
    if second == b'*' {
        return (Shape::Blank, bytes::line(&text[2..]) + 2);
    }
    if second == b'/' {
        return (Shape::Spelled(Kind::Symbol(Symbol::Or)), 2);
    }
    if is_letter(second) {
        return run(text);
    }
    (Shape::Spelled(Kind::Symbol(Symbol::Difference)), 1)
}

/// What is spelled by signs, or a single byte that is none.
fn sign(text: &[u8]) -> (Shape, usize)
    requires some { 0 < length text.now }
    requires first { IsOther text.now }
    requires plain { IsPlain text.now }
    ensures { IsPiece text.now result.1 result.0 }
{
    let mut size = text.len().min(4);
    while size > 1 {
        if let Some(kind) = kind_of(Table::Signs, &text[..size]) {
            return (Shape::Spelled(kind), size);
        }
        size -= 1;
    }
    match kind_of(Table::Signs, &text[..1]) {
        Some(kind) => (Shape::Spelled(kind), 1),
        None => (Shape::Bad(LexKind::BadCharacter), 1),
    }
}

/// What begins with no blank, digit, letter, `_`, quote or backslash.
fn other(text: &[u8]) -> (Shape, usize)
    requires some { 0 < length text.now }
    requires first { IsOther text.now }
    ensures { IsPiece text.now result.1 result.0 }
{
    if bytes::opens_comment(text) {
        return match comment_end(&text[2..]) {
            Some(end) => (Shape::Blank, end + 2),
            None => (Shape::Bad(LexKind::OpenComment), text.len()),
        };
    }
    if bytes::begins_four(b'-', text) {
        return (Shape::Spelled(Kind::Dashes), bytes::dashes(text));
    }
    if bytes::begins_four(b'=', text) {
        return (Shape::Spelled(Kind::Equals), bytes::equals(text));
    }
    sign(text)
}

/// The piece at the front of a text, and how long it is.
pub fn piece(alloc: Global, text: &[u8]) -> Result<(Shape, usize), AllocError>
    requires some { 0 < length text.now }
    requires inside { InUtf8 text.now }
    ensures { IfOk result (λ found. IsPiece text.now found.1 found.0) }
{
    let first = text[0];
    if bytes::is_blank(first) {
        return Ok((Shape::Blank, 1));
    }
    if is_digit(first) {
        let size = bytes::digits(text);
        return Ok((number(&text[..size]), size));
    }
    if is_word_start(first) {
        return word(alloc, text);
    }
    if first == b'"' {
        return string(alloc, text);
    }
    if first == b'\\' {
        return Ok(backslash(text));
    }
    Ok(other(text))
}
