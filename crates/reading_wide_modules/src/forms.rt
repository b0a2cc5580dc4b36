//! What a piece is read for.

ghost use Rattle.std.specs.Prelude.{◌≡◌, IfOk};
ghost use Rattle.reading_wide_modules.specs.Forms.{brought, brought_by, if_whole, instance_of, is_brought_whole, readable, without_local};

use crate::unread::first_mark;
use base_core::{NoMemory, Text};
use reading_library::is_library;
use reading_modules::is_standard;
use reading_pieces::{Mark, mark_of};
use reading_tokens::{Kind, Token};

/// What stands behind LOCAL, or all of it.
#[tactic(auto, unfolding(crate::specs::Forms::without_local))]
fn without_local(piece: &[Token]) -> &[Token]
    ensures { result.now ≡ without_local piece.now }
{
    match piece {
        [first, behind @ ..] => match mark_of(first) {
            Mark::Local => behind,
            _ => piece,
        },
        _ => piece,
    }
}

/// The tokens that are read of a piece: a definition without the LOCAL in front of it, and any other piece as it is.
#[tactic(auto, unfolding(crate::specs::Forms::readable))]
pub(crate) fn readable(piece: &[Token]) -> &[Token]
    ensures { result.now ≡ readable piece.now }
{
    let behind = without_local(piece);
    match first_mark(behind) {
        Mark::Name => behind,
        _ => piece,
    }
}

/// Whether all that a module has is brought by its instance, as by EXTENDS.
fn is_brought_whole(name: &Text) -> bool
    ensures { result ≡ is_brought_whole name.now }
{
    is_standard(name) || is_library(name.as_str())
}

/// The name of a module that is brought whole.
fn if_whole(kind: &Kind) -> Result<Option<Text>, NoMemory>
    ensures { IfOk result (λ o. o ≡ if_whole kind.now) }
{
    match kind {
        Kind::Name(name) => {
            if is_brought_whole(name) {
                return Ok(Some(name.copy()?));
            }
            Ok(None)
        }
        _ => Ok(None),
    }
}

fn brought_by(mark: Mark, kind: &Kind) -> Result<Option<Text>, NoMemory>
    ensures { IfOk result (λ o. o ≡ brought_by mark kind.now) }
{
    match mark {
        Mark::Instance => if_whole(kind),
        _ => Ok(None),
    }
}

/// The module that INSTANCE and its name bring.
#[tactic(auto, unfolding(crate::specs::Forms::instance_of))]
fn instance_of(tokens: &[Token]) -> Result<Option<Text>, NoMemory>
    ensures { IfOk result (λ o. o ≡ instance_of tokens.now) }
{
    match tokens {
        [word, name] => brought_by(mark_of(word), &name.kind),
        _ => Ok(None),
    }
}

/// The module that a piece brings, with LOCAL in front of it or without.
pub(crate) fn brought(piece: &[Token]) -> Result<Option<Text>, NoMemory>
    ensures { IfOk result (λ o. o ≡ brought piece.now) }
{
    instance_of(without_local(piece))
}
