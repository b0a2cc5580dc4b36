//! Parts of an action, each of which is a term.

ghost use Rattle.std.specs.Prelude.{◌≡◌, IfOk, map};
ghost use Rattle.eval_meanings.specs.Unchanged.{unchanged_of};
ghost use Rattle.names_terms.specs.Lists.{terms_list};
ghost use Rattle.names_terms.specs.Terms.{place_of};
ghost use Rattle.actions_rows.specs.Rows.{part_term};

use base_core::Place;
use names_terms::{Term, Terms};
use std::alloc::{AllocError, Global};

/// A term of the text, or that a term is unchanged, which no text spells and which has a place of its own.
#[derive(Clone, Copy, Drop)]
pub enum Part<'a> {
    Plain(&'a Term),
    Unchanged(Place, &'a Term),
}

/// The place of the term.
pub fn part_place(part: Part<'_>) -> Place
    ensures { result ≡ place_of (part_term part.entry) }
{
    match part {
        Part::Plain(term) => term.at,
        Part::Unchanged(at, _) => at,
    }
}

/// The terms as parts.
pub fn plain_parts<'a>(alloc: Global, terms: &'a Terms) -> Result<Vec<Part<'a>>, AllocError>
    ensures { IfOk result (λ parts. map part_term parts.items ≡ terms_list terms.now) }
{
    let mut parts = Vec::new(alloc);
    for term in terms.items() {
        parts.push(Part::Plain(term))?;
    }
    Ok(parts)
}

/// That each of the terms is unchanged.
pub fn unchanged_parts<'a>(
    alloc: Global,
    at: Place,
    terms: &'a Terms,
) -> Result<Vec<Part<'a>>, AllocError>
    ensures { IfOk result (λ parts. map part_term parts.items ≡ map (unchanged_of at) (terms_list terms.now)) }
{
    let mut parts = Vec::new(alloc);
    for term in terms.items() {
        parts.push(Part::Unchanged(at, term))?;
    }
    Ok(parts)
}
