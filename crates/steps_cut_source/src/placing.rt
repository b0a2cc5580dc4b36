ghost use Rattle.std.specs.Prelude.{◌≡◌, ◌++◌, IfOk, map};
ghost use Rattle.steps_cut_source.specs.Listing.{at_cut};

use crate::entry::Entry;
use base_cuts::Cut;
use states_core::State;
use std::alloc::{AllocError, Global};

/// The states at the cut, behind the entries that are there.
pub(crate) fn push_at(
    alloc: Global,
    made: Vec<Entry>,
    cut: &Cut,
    states: Vec<State>,
) -> Result<Vec<Entry>, AllocError>
    ensures { IfOk result (λ now. now.items ≡ made.items ++ map (at_cut cut.now) states.items) }
{
    let mut made = made;
    for state in states {
        let cut = cut.copy(alloc)?;
        made.push(Entry { cut, state })?;
    }
    Ok(made)
}

/// The states at the cut.
pub(crate) fn entries(
    alloc: Global,
    cut: &Cut,
    states: Vec<State>,
) -> Result<Vec<Entry>, AllocError>
    ensures { IfOk result (λ now. now.items ≡ map (at_cut cut.now) states.items) }
{
    let none = Vec::new(alloc);
    push_at(alloc, none, cut, states)
}
