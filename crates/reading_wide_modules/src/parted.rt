//! The pieces of a module, read one by one.

ghost use Rattle.std.specs.Prelude.{◌≡◌, ◌++◌, true, false, None, IfOk, OnOk, MatchOption};
ghost use Rattle.reading_trees.specs.Laid.{EndsOnce, NoEnd};
ghost use Rattle.reading_wide_modules.specs.Alone.{first_place};
ghost use Rattle.reading_wide_modules.specs.Forms.{brought};
ghost use Rattle.reading_wide_modules.specs.Parts.{Adds, AddsRead, HasNoPieces, IsBehind, IsUnparted, ReadBody, are_ending};
ghost use Rattle.reading_wide_modules.specs.Pieces.{InPieces, Parted};

use crate::alone::{read_alone, read_heading};
use crate::forms::{brought, readable};
use crate::unread::{Unread, unread_as};
use base_core::{Names, NoMemory, Place, Text};
use reading_modules::{SpelledModule, Stop};
use reading_pieces::{heading_length, is_nested, one_parting, piece_length};
use reading_tokens::{Kind, Token};
use reading_trees::{Module, Units, laws_of_laid};
use reading_units::shallow_not_refused;
use std::alloc::{AllocError, Global};

/// The place of the first of the tokens, or that behind them.
fn first_place(tokens: &[Token], behind: Place) -> Place
    ensures { result ≡ first_place tokens.now behind }
{
    match tokens {
        [first, ..] => first.place,
        _ => behind,
    }
}

/// What is read behind a heading.
#[derive(Drop)]
struct Body {
    /// The modules that pieces bring.
    extends: Names,
    units: Units,
    unread: Vec<Unread>,
}

/// Reads a piece, and adds its units, or adds it to those that are not read.
fn read_piece(
    alloc: Global,
    heading: &[Token],
    piece: &[Token],
    behind: Place,
    body: &mut Body,
) -> Result<(), NoMemory>
    requires heading { NoEnd heading.now }
    requires piece { NoEnd piece.now }
    requires brings_none { brought piece.now ≡ None }
    ensures { OnOk result (AddsRead heading.now piece.now behind body.old.extends body.old.units body.old.unread.items body.new.extends body.new.units body.new.unread.items) }
{
    match read_alone(alloc, heading, readable(piece), behind) {
        Ok(module) => {
            body.units.append(module.units)?;
            Ok(())
        }
        Err(Stop::Refused(why)) => {
            body.unread.push(unread_as(alloc, piece, why)?)?;
            Ok(())
        }
        Err(Stop::NoMemory) => Err(AllocError),
    }
}

/// Adds the module that a piece brings, or reads the piece.
fn add_piece(
    alloc: Global,
    heading: &[Token],
    piece: &[Token],
    behind: Place,
    body: &mut Body,
) -> Result<(), NoMemory>
    requires heading { NoEnd heading.now }
    requires piece { NoEnd piece.now }
    ensures { OnOk result (Adds heading.now piece.now behind body.old.extends body.old.units body.old.unread.items body.new.extends body.new.units body.new.unread.items) }
{
    let brought = brought(piece)?;
    match brought {
        Some(name) => {
            body.extends.push(name)?;
            Ok(())
        }
        None => read_piece(alloc, heading, piece, behind, body),
    }
}

/// Reads the pieces behind a heading.
fn read_pieces(
    alloc: Global,
    heading: &[Token],
    tokens: &[Token],
    last: Place,
) -> Result<Body, NoMemory>
    requires heading { NoEnd heading.now }
    requires body { NoEnd tokens.now }
    ensures { IfOk result (λ r. ReadBody heading.now last tokens.now r.extends r.units r.unread.items) }
{
    let mut body = Body {
        extends: Names::new(alloc),
        units: Units::new(alloc),
        unread: Vec::new(alloc),
    };
    let mut rest = tokens;
    while let Some(size) = piece_length(rest) {
        let (piece, behind) = rest.split_at(size);
        let place = first_place(behind, last);
        add_piece(alloc, heading, piece, place, &mut body)?;
        rest = behind;
    }
    Ok(body)
}

/// Adds names behind others.
fn add_names(names: &mut Names, more: &[Text]) -> Result<(), NoMemory>
    ensures { OnOk result (names.new ≡ names.old ++ more.now) }
{
    for name in more {
        names.push(name.copy()?)?;
    }
    Ok(())
}

/// Reads the pieces behind a heading that was read.
fn read_behind(
    alloc: Global,
    heading: &[Token],
    rest: &[Token],
    equals: Place,
    title: Module,
) -> Result<SpelledModule<Unread>, NoMemory>
    requires heading { NoEnd heading.now }
    requires body { NoEnd rest.now }
    ensures { IfOk result (λ w. IsBehind heading.now rest.now equals title w.module w.notes.items) }
{
    let body = read_pieces(alloc, heading, rest, equals)?;
    let mut module = title;
    add_names(&mut module.extends, body.extends.items())?;
    module.units.append(body.units)?;
    Ok(SpelledModule {
        module,
        notes: body.unread,
    })
}

/// Reads the heading and the pieces of a module, which stand before its equals signs.
fn read_body(
    alloc: Global,
    body: &[Token],
    equals: Place,
) -> Result<Option<SpelledModule<Unread>>, NoMemory>
    requires { NoEnd body.now }
    ensures { IfOk result (λ o. MatchOption o (IsUnparted body.now equals) (λ w. Parted body.now equals w.module w.notes.items)) }
{
    laws_of_laid();
    shallow_not_refused();
    one_parting();
    match heading_length(body) {
        Some(size) => {
            let (heading, rest) = body.split_at(size);
            match read_heading(alloc, heading, first_place(rest, equals)) {
                Ok(title) => Ok(Some(read_behind(alloc, heading, rest, equals, title)?)),
                Err(Stop::Refused(_)) => Ok(None),
                Err(Stop::NoMemory) => Err(AllocError),
            }
        }
        None => Ok(None),
    }
}

/// Whether these are equals signs and the End.
fn are_ending(equals: &Kind, end: &Kind) -> bool
    ensures { result ≡ are_ending equals.now end.now }
{
    match equals {
        Kind::Equals => matches!(end, Kind::End),
        _ => false,
    }
}

/// Reads the tokens of a module in pieces.
pub(crate) fn read_parted(
    alloc: Global,
    tokens: &[Token],
) -> Result<Option<SpelledModule<Unread>>, NoMemory>
    requires { EndsOnce tokens.now }
    ensures { IfOk result (λ o. MatchOption o (HasNoPieces tokens.now) (λ w. InPieces tokens.now w.module w.notes.items)) }
{
    if is_nested(tokens) {
        return Ok(None);
    }
    match tokens {
        [body @ .., equals, end] => {
            if are_ending(&equals.kind, &end.kind) {
                return read_body(alloc, body, equals.place);
            }
            Ok(None)
        }
        _ => Ok(None),
    }
}
