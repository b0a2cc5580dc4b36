//! The shape of the operator of SPECIFICATION.

ghost use Rattle.std.specs.Prelude.{◌≡◌, ◌↔◌, ◌≤◌, IfOk, MatchOption, length};
ghost use Rattle.names_terms.specs.Terms.{Term as Seen, place_of};
ghost use Rattle.names_term_levels.specs.Conjuncts.{IsNoShape, IsShapeOf, contribution_of};
ghost use Rattle.names_term_levels.specs.Shape.{rows, HasShape, init_of};
ghost use Rattle.names_term_levels.specs.Notes.{AreNotes};
ghost use Rattle.names_term_parts.specs.Slots.{MentionsBelow};

use crate::gathering::{Gathered, gather};
use crate::note::Note;
use base_core::NoMemory;
use names_terms::{Operator, Term};
use std::alloc::Global;

/// What the operator of SPECIFICATION gives: the conjuncts of Init, one or more, and Next.
///
/// Several conjuncts are Init as a conjunction that has the place of the operator's body.
#[derive(Drop)]
pub struct Shape<'a> {
    pub inits: Vec<&'a Term>,
    pub next: &'a Term,
}

/// The shape where there are conjuncts of Init and one action that is always taken.
fn shaped(gathered: Gathered<'_>) -> Option<Shape<'_>>
    ensures { MatchOption result (IsNoShape (contribution_of gathered.entry)) (λ s. IsShapeOf (contribution_of gathered.entry) s) }
{
    let Gathered { inits, steps } = gathered;
    if inits.is_empty() || steps.len() != 1 {
        return None;
    }
    Some(Shape {
        inits,
        next: steps[0],
    })
}

/// The conjuncts of Init and Next that the operator of SPECIFICATION gives, or none where its body has another shape.
pub fn specification<'a>(
    alloc: Global,
    table: &[Operator],
    notes: &[Note],
    body: &'a Term,
) -> Result<Option<Shape<'a>>, NoMemory>
    requires noted { AreNotes table.now notes.now }
    requires known { length notes.now ≤ length table.now }
    requires below { MentionsBelow (length notes.now) body.now }
    ensures { IfOk result (λ o. MatchOption o ((init next : Seen) → ¬ HasShape table.now body.now init next) (λ s. (init next : Seen) → HasShape table.now body.now init next ↔ ((init ≡ init_of (place_of body.now) (rows s.inits.items)) × (next ≡ s.next.now)))) }
{
    let found = gather(alloc, table, notes, body)?;
    match found {
        Some(gathered) => Ok(shaped(gathered)),
        None => Ok(None),
    }
}
