//! What the bodies of definitions tell, read again as often as something is told that was not: a definition may use itself.

ghost use Rattle.std.specs.Prelude.{◌≡◌, ◌≤◌, ◌<◌, ◌↔◌, ◌⊎◌, ℕ, List, IfOk, OnOk, IsTrue, None, Some, false, true, length, set, slice_get};
ghost use Rattle.std.specs.Prelude.{[]};
ghost use Rattle.names_term_parts.specs.Slots.{MentionsBelow, UsesSmaller};
ghost use Rattle.names_term_levels.specs.Arguments.{earlier_of};
ghost use Rattle.names_term_levels.specs.Findings.{Adds, Says};
ghost use Rattle.names_term_levels.specs.Telling.{AreClosed, AreSound, GoesBefore, IsClosedAt, IsToldBy, IsUntold, Learns, TellsMore, left_to_tell};

use crate::fairness::fair_by;
use crate::note::Note;
use crate::reading::{read_fault, read_text};
use base_core::NoMemory;
use names_term_parts::{LevelFault, Slots, is_before};
use names_terms::{Operator, Term};
use std::alloc::Global;

/// A note that tells nothing.
fn untold(alloc: Global) -> Note
    ensures { IsUntold result }
{
    Note {
        occurs: Slots::new(alloc),
        primed: Slots::new(alloc),
        fault: None,
        fair: false,
    }
}

/// As many such notes.
pub fn all_untold(alloc: Global, count: usize) -> Result<Vec<Note>, NoMemory>
    ensures count { IfOk result (λ ns. length ns.items ≡ count) }
    ensures none { IfOk result (λ ns. (k : ℕ) (n : Note) → slice_get ns.items k ≡ Some n → IsUntold n) }
{
    let mut notes = Vec::new(alloc);
    for made in 0..count {
        notes.push(untold(alloc))?;
    }
    Ok(notes)
}

/// What a text tells, where notes tell of the definitions that it uses.
pub fn told_by(
    alloc: Global,
    table: &[Operator],
    notes: &[Note],
    term: &Term,
) -> Result<Note, NoMemory>
    requires known { length notes.now ≤ length table.now }
    requires below { MentionsBelow (length notes.now) term.now }
    ensures { IfOk result (λ n. IsToldBy table.now notes.now term.now n) }
{
    let fair = fair_by(alloc, notes, term)?;
    let Note {
        occurs,
        primed,
        fault,
        fair: _,
    } = read_text(alloc, table, notes, term)?;
    Ok(Note {
        occurs,
        primed,
        fault,
        fair,
    })
}

/// Whether a fault goes before what was found.
fn goes_before(found: Option<LevelFault>, fault: Option<LevelFault>) -> bool
    ensures { IsTrue result ↔ GoesBefore found fault }
{
    match fault {
        Some(fault) => match found {
            Some(found) => is_before(fault, found),
            None => true,
        },
        None => false,
    }
}

/// Whether a note tells what another does not, or an earlier fault.
fn tells_more(note: &Note, told: &Note) -> bool
    ensures { IsTrue result ↔ TellsMore note.now told.now }
{
    note.occurs.lacks(&told.occurs)
        || note.primed.lacks(&told.primed)
        || goes_before(note.fault, told.fault)
        || (told.fair && !note.fair)
}

/// Adds what another note tells.
fn learn(note: &mut Note, told: &Note) -> Result<(), NoMemory>
    ensures { OnOk result (Learns note.old told.now note.new) }
{
    note.occurs.join(&told.occurs)?;
    note.primed.join(&told.primed)?;
    read_fault(note, told.fault);
    note.fair = note.fair || told.fair;
    Ok(())
}

/// Reads the body of a definition again: whether it tells more than its note.
fn read_again(
    alloc: Global,
    table: &[Operator],
    notes: &mut Vec<Note>,
    number: usize,
) -> Result<bool, NoMemory>
    requires smaller { UsesSmaller table.now }
    requires all { length notes.old.items ≡ length table.now }
    requires sound { AreSound table.now notes.old.items }
    requires below { number < length table.now }
    ensures all { OnOk result (length notes.new.items ≡ length table.now) }
    ensures sound { OnOk result (AreSound table.now notes.new.items) }
    ensures less { IfOk result (λ more. IsTrue more → left_to_tell table.now notes.new.items < left_to_tell table.now notes.old.items) }
    ensures closed { IfOk result (λ more. (more ≡ false) → (notes.new.items ≡ notes.old.items) × IsClosedAt table.now notes.old.items number) }
{
    let told = told_by(alloc, table, notes.as_slice(), &table[number].body)?;
    if !tells_more(&notes[number], &told) {
        return Ok(false);
    }
    learn(&mut notes[number], &told)?;
    Ok(true)
}

/// Reads each body again: whether one of them tells more than its note.
pub fn read_all(alloc: Global, table: &[Operator], notes: &mut Vec<Note>) -> Result<bool, NoMemory>
    requires smaller { UsesSmaller table.now }
    requires all { length notes.old.items ≡ length table.now }
    requires sound { AreSound table.now notes.old.items }
    ensures all { OnOk result (length notes.new.items ≡ length table.now) }
    ensures sound { OnOk result (AreSound table.now notes.new.items) }
    ensures less { IfOk result (λ more. IsTrue more → left_to_tell table.now notes.new.items < left_to_tell table.now notes.old.items) }
    ensures closed { IfOk result (λ more. (more ≡ false) → AreClosed table.now notes.new.items) }
{
    let mut more = false;
    for number in 0..table.len() {
        let again = read_again(alloc, table, notes, number)?;
        more = again || more;
    }
    Ok(more)
}
