//! What is not read of a module.

ghost use Rattle.std.specs.Prelude.{◌≡◌, IfOk};
ghost use Rattle.reading_wide_modules.specs.Forms.{first_mark};
ghost use Rattle.reading_wide_modules.specs.Pieces.{begins_at, unread_as};

use base_core::{Names, NoMemory, Place};
use reading_modules::LoadWhy;
use reading_pieces::{Mark, mark_of, names_of};
use reading_tokens::Token;
use std::alloc::Global;

/// A piece of a module that is not read.
#[derive(Drop)]
pub struct Unread {
    /// The token that it begins with.
    pub begins: Mark,
    /// The place of that token.
    pub at: Place,
    /// The names that it declares.
    pub names: Names,
    pub why: LoadWhy,
}

/// What the tokens begin with.
pub(crate) fn first_mark(piece: &[Token]) -> Mark
    ensures { result ≡ first_mark piece.now }
{
    match piece {
        [first, ..] => mark_of(first),
        _ => Mark::Other,
    }
}

fn begins_at(piece: &[Token]) -> Place
    ensures { result ≡ begins_at piece.now }
{
    match piece {
        [first, ..] => first.place,
        _ => Place {
            file: 0,
            line: 0,
            col: 0,
        },
    }
}

/// The piece as one that is not read.
pub(crate) fn unread_as(alloc: Global, piece: &[Token], why: LoadWhy) -> Result<Unread, NoMemory>
    ensures { IfOk result (λ u. u ≡ unread_as piece.now why) }
{
    let names = names_of(alloc, piece)?;
    Ok(Unread {
        begins: first_mark(piece),
        at: begins_at(piece),
        names,
        why,
    })
}
