//! Tokens as a module, and a piece by itself.

ghost use Rattle.std.specs.Prelude.{◌≡◌, [], IfOk, IfErr};
ghost use Rattle.reading_trees.specs.Laid.{EndsOnce, IsLaid, NoEnd};
ghost use Rattle.reading_modules.specs.Refusals.{StopsBy};
ghost use Rattle.reading_wide_modules.specs.Alone.{ReadAs, RefusedFor, alone};

use base_core::Place;
use reading_junctions::{LayFault, lay};
use reading_modules::{LoadWhy, Stop};
use reading_pieces::append_tokens;
use reading_tokens::{Kind, Token};
use reading_trees::{Laid, Module};
use reading_units::{ParseFault, laid_ends_once, module};
use std::alloc::{AllocError, Global};

/// The tokens with their junction lists marked.
fn laid_of(alloc: Global, tokens: Vec<Token>) -> Result<Vec<Laid>, Stop>
    requires { EndsOnce tokens.items }
    ensures laid { IfOk result (λ laid. IsLaid tokens.items laid.items) }
    ensures refused { IfErr result (StopsBy (RefusedFor tokens.items)) }
{
    match lay(alloc, tokens) {
        Ok(laid) => Ok(laid),
        Err(LayFault::LeftOfList(place)) => Err(Stop::Refused(LoadWhy::Lay(place))),
        Err(LayFault::NoMemory) => Err(Stop::NoMemory),
    }
}

/// The module that tokens spell.
pub(crate) fn module_of(alloc: Global, tokens: Vec<Token>) -> Result<Module, Stop>
    requires { EndsOnce tokens.items }
    ensures read { IfOk result (ReadAs tokens.items) }
    ensures refused { IfErr result (StopsBy (RefusedFor tokens.items)) }
{
    laid_ends_once();
    let laid = laid_of(alloc, tokens)?;
    match module(alloc, &laid) {
        Ok(module) => Ok(module),
        Err(ParseFault::NoMemory) => Err(Stop::NoMemory),
        Err(fault) => Err(Stop::Refused(LoadWhy::Parse(fault))),
    }
}

/// A piece between the heading of its module and equals signs.
fn alone(
    alloc: Global,
    heading: &[Token],
    piece: &[Token],
    behind: Place,
) -> Result<Vec<Token>, AllocError>
    ensures { IfOk result (λ tokens. tokens.items ≡ alone heading.now piece.now behind) }
{
    let mut tokens = Vec::new(alloc);
    append_tokens(&mut tokens, heading)?;
    append_tokens(&mut tokens, piece)?;
    tokens.push(Token {
        kind: Kind::Equals,
        place: behind,
    })?;
    tokens.push(Token {
        kind: Kind::End,
        place: behind,
    })?;
    Ok(tokens)
}

/// Reads a piece alone.
pub(crate) fn read_alone(
    alloc: Global,
    heading: &[Token],
    piece: &[Token],
    behind: Place,
) -> Result<Module, Stop>
    requires heading { NoEnd heading.now }
    requires piece { NoEnd piece.now }
    ensures read { IfOk result (ReadAs (alone heading.now piece.now behind)) }
    ensures refused { IfErr result (StopsBy (RefusedFor (alone heading.now piece.now behind))) }
{
    let tokens = alone(alloc, heading, piece, behind)?;
    module_of(alloc, tokens)
}

/// Reads a heading alone.
pub(crate) fn read_heading(alloc: Global, heading: &[Token], behind: Place) -> Result<Module, Stop>
    requires { NoEnd heading.now }
    ensures read { IfOk result (ReadAs (alone heading.now [] behind)) }
    ensures refused { IfErr result (StopsBy (RefusedFor (alone heading.now [] behind))) }
{
    read_alone(alloc, heading, &[], behind)
}
