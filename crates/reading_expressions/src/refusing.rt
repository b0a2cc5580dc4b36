//! The refusal of a laid token that can not follow.

ghost use Rattle.std.specs.Prelude.{◌≡◌, ◌<◌, None, drop, length};
ghost use Rattle.reading_trees.specs.Laid.{next_of};
ghost use Rattle.reading_expressions.specs.Refused.{IsRefusedAt, place_of, refusal_before, refusal_of_kind};

use crate::fault::ParseFault;
use base_core::Place;
use reading_tokens::Kind;
use reading_trees::Laid;

/// The place of a laid token.
pub fn place_of(laid: &Laid) -> Place
    ensures { result ≡ place_of laid.now }
{
    match laid {
        Laid::Plain(token) => token.place,
        Laid::ListOpen(_, at) => *at,
        Laid::ListItem(_, at) => *at,
        Laid::ListClose(at) => *at,
    }
}

/// The refusal at a place where a token of this kind comes next, which has a place of its own.
fn kind_fault(kind: &Kind, own: Place, at: Place) -> ParseFault
    ensures { result ≡ refusal_of_kind kind.now own at }
{
    match kind {
        Kind::Foreign(foreign) => ParseFault::OutOfProfile(*foreign, own),
        _ => ParseFault::Expected(at),
    }
}

/// The refusal at a place, by the token that comes next from an index on.
fn next_fault(laid: &[Laid], from: usize, at: Place) -> ParseFault
    ensures { result ≡ refusal_before (next_of (drop from laid.now) None) at }
{
    for i in from..laid.len() {
        match &laid[i] {
            Laid::Plain(token) => return kind_fault(&token.kind, token.place, at),
            Laid::ListItem(_, _) => return ParseFault::Expected(at),
            Laid::ListOpen(_, _) => {}
            Laid::ListClose(_) => {}
        }
    }
    ParseFault::Expected(at)
}

/// The refusal of the laid token at an index, which can not stand there. The end of a list is refused as the token before which the list ends.
pub fn fault_at(laid: &[Laid], at: usize) -> ParseFault
    requires { at < length laid.now }
    ensures { IsRefusedAt (drop at laid.now) result }
{
    next_fault(laid, at, place_of(&laid[at]))
}
