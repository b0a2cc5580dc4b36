ghost use Rattle.std.specs.Prelude.{◌≡◌, ◌↔◌, IsTrue, Some, slice_get};
ghost use Rattle.values_core.specs.Data.{Val};
ghost use Rattle.logs_updates.specs.Changes.{LeadsTo};
ghost use Rattle.steps_found_states.specs.Walks.{Agrees};
ghost use Rattle.steps_moves.specs.Laws.{ShownAgrees, WholeShows};

use logs_updates::{See, seen};
use states_core::Partial;

/// Whether what is seen of each variable that has a value stands at its path.
pub fn agrees(sees: &[See], places: &Partial) -> bool
    ensures { IsTrue result ↔ Agrees sees.now places.now }
{
    sees.iter().all(|see| agrees_with(see, places))
}

fn agrees_with(see: &See, places: &Partial) -> bool
    ensures { IsTrue result ↔ ((v : Val) → slice_get places.now see.now.path.variable.0 ≡ Some (Some v) → LeadsTo see.now.path.keys v see.now.value) }
{
    match places.get(see.path.variable()) {
        Some(value) => seen(see, value),
        None => true,
    }
}

/// Places that agree with what is seen show it once they are whole, and a state that shows it completes only places that agree.
pub fn seen_laws()
    ensures whole { WholeShows }
    ensures shown { ShownAgrees }
{}
