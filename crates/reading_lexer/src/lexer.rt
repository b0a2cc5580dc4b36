//! The tokens of a whole text.

ghost use Rattle.std.specs.Prelude.{◌≡◌, ◌&&◌, ◌+◌, ◌*◌, ◌^◌, ◌<◌, ◌≤◌, length, true, false};
ghost use Rattle.reading_tokens.specs.Tokens.{is_equals, kind_at};
ghost use Rattle.reading_lexer.specs.Lexer.{InUtf8, Reads, EndsAlone, Lexes};

use crate::fault::LexFault;
use crate::piece::piece;
use crate::places::{behind, start_of};
use crate::start::module_start;
use base_core::Place;
use base_core::limits::MAX_TOKENS;
use reading_tokens::{Kind, LexKind, Shape, Token, Word};
use std::alloc::Global;
use std::str;

/// Whether a token ends the text: of a module the first of four or more equals signs does.
fn ends(framed: bool, kind: &Kind) -> bool
    ensures { result ≡ (framed && is_equals kind.now) }
{
    framed && matches!(kind, Kind::Equals)
}

/// The kind of a token behind so many others: the second of a module is the word of its heading.
fn kind_at(framed: bool, count: usize, kind: Kind) -> Kind
    ensures { result ≡ kind_at framed count kind }
{
    if framed && count == 1 {
        return Kind::Word(Word::Module);
    }
    kind
}

/// The tokens of a text that begins at a place: all, or of a module those up to its end.
fn read(alloc: Global, text: &[u8], start: Place, framed: bool) -> Result<Vec<Token>, LexFault>
    requires inside { InUtf8 text.now }
    requires line { start.line + length text.now < 2 ^ 32 }
    requires col { start.col + 8 * length text.now < 2 ^ 32 }
    requires first { 1 ≤ start.col }
    ensures { Reads framed start text.now result }
{
    let mut tokens = Vec::new(alloc);
    let mut place = start;
    let mut rest = text;
    while 0 < rest.len() {
        let (shape, size) = piece(alloc, rest)?;
        let (front, after) = rest.split_at(size);
        let next = behind(place, front);
        match shape {
            Shape::Blank => {}
            Shape::Spelled(kind) => {
                if tokens.len() == MAX_TOKENS {
                    return Err(LexFault::Refused(LexKind::TooManyTokens, place));
                }
                if ends(framed, &kind) {
                    tokens.push(Token { kind, place })?;
                    tokens.push(Token {
                        kind: Kind::End,
                        place: next,
                    })?;
                    return Ok(tokens);
                }
                let kind = kind_at(framed, tokens.len(), kind);
                tokens.push(Token { kind, place })?;
            }
            Shape::Bad(why) => return Err(LexFault::Refused(why, place)),
        }
        place = next;
        rest = after;
    }
    tokens.push(Token {
        kind: Kind::End,
        place,
    })?;
    Ok(tokens)
}

/// The end alone, of a text without a module.
fn end_alone(alloc: Global, place: Place) -> Result<Vec<Token>, LexFault>
    ensures { EndsAlone place result }
{
    let mut tokens = Vec::new(alloc);
    tokens.push(Token {
        kind: Kind::End,
        place,
    })?;
    Ok(tokens)
}

/// The tokens of the module in a text, the last being `End`. What stands before the module and behind
/// its end is passed over; a text without a module has `End` alone. `file` is the number of the text's
/// file.
pub fn lex(alloc: Global, file: u32, bytes: &[u8]) -> Result<Vec<Token>, LexFault>
    requires { length bytes.now ≤ 2 ^ 28 }
    ensures { Lexes true file bytes.now result }
{
    let start = start_of(file);
    if let Err(error) = str::from_utf8(bytes) {
        let valid = &bytes[..error.valid_up_to()];
        return Err(LexFault::Refused(LexKind::NotUtf8, behind(start, valid)));
    }
    match module_start(bytes) {
        Some(n) => {
            let (before, module) = bytes.split_at(n);
            read(alloc, module, behind(start, before), true)
        }
        None => end_alone(alloc, behind(start, bytes)),
    }
}

/// The tokens of a whole text, the last being `End`. There is no module's frame here: the word MODULE is
/// foreign wherever it stands, and equals signs end nothing.
pub fn lex_plain(alloc: Global, file: u32, bytes: &[u8]) -> Result<Vec<Token>, LexFault>
    requires { length bytes.now ≤ 2 ^ 28 }
    ensures { Lexes false file bytes.now result }
{
    let start = start_of(file);
    if let Err(error) = str::from_utf8(bytes) {
        let valid = &bytes[..error.valid_up_to()];
        return Err(LexFault::Refused(LexKind::NotUtf8, behind(start, valid)));
    }
    read(alloc, bytes, start, false)
}
