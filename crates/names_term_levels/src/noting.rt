//! The notes of definitions, in the order of their numbers.

ghost use Rattle.std.specs.Prelude.{◌≡◌, ◌≤◌, IfOk, MatchOption, length, vec_len};
ghost use Rattle.names_term_parts.specs.declared.fault.LevelFault.{LevelFault as Fault};
ghost use Rattle.names_term_levels.specs.Faults.{IsAssumptionFault, IsFirst};
ghost use Rattle.names_term_levels.specs.Notes.{AreNotes, IsNote};
ghost use Rattle.names_term_parts.specs.Slots.{MentionsBelow, UsesSmaller};

use crate::note::Note;
use crate::telling::{all_untold, read_all, told_by};
use base_core::NoMemory;
use names_term_parts::{LevelFault, held};
use names_terms::{Level, Operator, Term};
use std::alloc::Global;

/// The note of a text, where the definitions that it uses have their notes.
pub fn note_of(
    alloc: Global,
    table: &[Operator],
    notes: &[Note],
    term: &Term,
) -> Result<Note, NoMemory>
    requires noted { AreNotes table.now notes.now }
    requires known { length notes.now ≤ length table.now }
    requires below { MentionsBelow (length notes.now) term.now }
    ensures { IfOk result (λ n. IsNote table.now term.now n) }
{
    told_by(alloc, table, notes, term)
}

/// The first fault of an assumption: what is wrong in its term, and that it is no constant.
pub fn assumption_fault(
    alloc: Global,
    table: &[Operator],
    notes: &[Note],
    term: &Term,
) -> Result<Option<LevelFault>, NoMemory>
    requires noted { AreNotes table.now notes.now }
    requires known { length notes.now ≤ length table.now }
    requires below { MentionsBelow (length notes.now) term.now }
    ensures { IfOk result (λ o. MatchOption o ((f : Fault) → ¬ IsAssumptionFault table.now term.now f) (IsFirst (IsAssumptionFault table.now term.now))) }
{
    let note = note_of(alloc, table, notes, term)?;
    Ok(held(note.fault, term.at, Level::Constant, term.level))
}

/// The notes of a table's definitions, by their numbers. The bodies are read in turn until none tells more than its note.
pub fn notes(alloc: Global, table: &[Operator]) -> Result<Vec<Note>, NoMemory>
    requires { UsesSmaller table.now }
    ensures noted { IfOk result (λ ns. AreNotes table.now ns.items) }
    ensures all { IfOk result (λ ns. vec_len ns ≡ length table.now) }
{
    let mut notes = all_untold(alloc, table.len())?;
    loop {
        if !read_all(alloc, table, &mut notes)? {
            return Ok(notes);
        }
    }
}
