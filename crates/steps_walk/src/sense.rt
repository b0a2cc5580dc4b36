//! In which sense the terms of a list are parts of an action.

ghost use Rattle.std.specs.Prelude.{◌≡◌};
ghost use Rattle.actions_rows.specs.Rows.{part_term};
ghost use Rattle.steps_walk.specs.Walking.{in_sense};

use actions_rows::Part;
use base_core::Place;
use names_terms::Term;

/// Each term is a part itself, or that it is unchanged is one, which stands at the place.
#[derive(Clone, Copy, Drop)]
pub enum Sense {
    Itself,
    Unchanged(Place),
}

/// The part that the term is.
pub fn part_in<'a>(sense: Sense, term: &'a Term) -> Part<'a>
    ensures { part_term result ≡ in_sense sense term.now }
{
    match sense {
        Sense::Itself => Part::Plain(term),
        Sense::Unchanged(at) => Part::Unchanged(at, term),
    }
}
