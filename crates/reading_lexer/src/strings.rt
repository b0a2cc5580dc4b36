//! Strings and texts.

ghost use Rattle.std.specs.Prelude.{◌≡◌, ◌||◌, ◌==◌, IfOk, IsUtf8};
ghost use Rattle.reading_tokens.specs.Shapes.{escaped};
ghost use Rattle.reading_lexer.specs.Lexer.{IsQuoted};

use base_core::Text;
use reading_tokens::LexKind;
use std::alloc::{AllocError, Global};

/// What stands behind an opening quote, and how many bytes that takes.
#[derive(Drop)]
pub enum Quoted {
    /// The characters of a string.
    Closed(Vec<u8>, usize),
    /// Why there is no string.
    Broken(LexKind, usize),
}

/// The text with these bytes.
pub fn text_of(alloc: Global, bytes: &[u8]) -> Result<Text, AllocError>
    requires { IsUtf8 bytes.now }
    ensures { IfOk result (λ t. t ≡ bytes.now) }
{
    match Text::from_bytes(alloc, bytes)? {
        Some(text) => Ok(text),
        None => unreachable!(),
    }
}

/// The character that an escape stands for.
fn escaped(c: u8) -> Option<u8>
    ensures { result ≡ escaped c }
{
    match c {
        b'"' => Some(b'"'),
        b'\\' => Some(b'\\'),
        b't' => Some(9),
        b'n' => Some(10),
        b'f' => Some(12),
        b'r' => Some(13),
        _ => None,
    }
}

fn ends_line(b: u8) -> bool
    ensures { result ≡ (b == 10 || b == 13) }
{
    b == b'\n' || b == b'\r'
}

/// What stands behind an opening quote.
pub fn unquote(alloc: Global, text: &[u8]) -> Result<Quoted, AllocError>
    ensures { IfOk result (λ found. IsQuoted text.now found) }
{
    let mut content = Vec::new(alloc);
    let mut at = 0;
    while at < text.len() {
        let b = text[at];
        if b == b'"' {
            return Ok(Quoted::Closed(content, at + 1));
        }
        if ends_line(b) {
            return Ok(Quoted::Broken(LexKind::OpenString, at + 1));
        }
        if b == b'\\' {
            if at + 1 == text.len() {
                return Ok(Quoted::Broken(LexKind::OpenString, text.len()));
            }
            match escaped(text[at + 1]) {
                Some(c) => content.push(c)?,
                None => return Ok(Quoted::Broken(LexKind::BadCharacter, at + 2)),
            }
            at += 2;
        } else {
            content.push(b)?;
            at += 1;
        }
    }
    Ok(Quoted::Broken(LexKind::OpenString, text.len()))
}
