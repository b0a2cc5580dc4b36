//! The first thing that is wrong with the levels of a program.

ghost use Rattle.std.specs.Prelude.{◌≡◌, ℕ, [], ◌∷◌, IfOk, MatchOption, length, slice_get};
ghost use Rattle.reading_trees.specs.declared.form.DefinitionForm.TheVariants as forms;
ghost use Rattle.names_terms.specs.Lists.{terms_list};
ghost use Rattle.names_term_parts.specs.Slots.{UsesSmaller};
ghost use Rattle.names_term_parts.specs.declared.fault.LevelFault.{LevelFault as Fault};
ghost use Rattle.names_program.specs.InUnits.{assumptions_in, definitions_in};
ghost use Rattle.names_term_levels.specs.Faults.{IsFirst};
ghost use Rattle.names_term_levels.specs.Notes.{AreNotes};
ghost use Rattle.names_program.specs.Names.{numbers_of};
ghost use Rattle.names_resolving.specs.Standing.{AreBelow, IsFaultOf, fault_in};
ghost use Rattle.names_resolving.specs.UnitLevels.{HasFineLevels, IsAssumedFault, IsBodyFault, IsFirstLevelFault, IsUnitFault};

use base_core::NoMemory;
use names_tables::Table;
use names_term_levels::{Note, assumption_fault};
use names_term_parts::LevelFault;
use names_terms::Terms;
use reading_trees::{DefinitionForm, Program, Unit};
use std::alloc::Global;

/// The number of the definition of that index, if it has one.
pub(crate) fn number_at(table: &Table, index: usize) -> Option<usize>
    ensures { result ≡ numbers_of table.now.numbers.items index }
{
    match table.numbers.get(index) {
        Some(number) => *number,
        None => None,
    }
}

/// The first fault in the body of the definition of that number.
fn noted_fault(notes: &[Note], number: usize) -> Option<LevelFault>
    ensures { result ≡ fault_in (slice_get notes.now number) }
{
    match notes.get(number) {
        Some(note) => note.fault,
        None => None,
    }
}

/// The first fault of what an instance gives for a constant, the definition of that number.
fn constant_fault(
    alloc: Global,
    table: &Table,
    notes: &[Note],
    number: usize,
) -> Result<Option<LevelFault>, NoMemory>
    requires noted { AreNotes table.now.operators notes.now }
    requires all { length notes.now ≡ length table.now.operators }
    requires ordered { UsesSmaller table.now.operators }
    ensures { IfOk result (IsFaultOf forms.Constant table.now.operators (slice_get table.now.operators number)) }
{
    match table.operators.get(number) {
        Some(operator) => {
            assumption_fault(alloc, table.operators.items(), notes, &operator.body)
        }
        None => Ok(None),
    }
}

/// The first fault in the body of the definition of that number, which has that form.
fn numbered_fault(
    alloc: Global,
    table: &Table,
    notes: &[Note],
    form: DefinitionForm,
    number: usize,
) -> Result<Option<LevelFault>, NoMemory>
    requires noted { AreNotes table.now.operators notes.now }
    requires all { length notes.now ≡ length table.now.operators }
    requires ordered { UsesSmaller table.now.operators }
    ensures { IfOk result (IsFaultOf form table.now.operators (slice_get table.now.operators number)) }
{
    match form {
        DefinitionForm::Operator => Ok(noted_fault(notes, number)),
        DefinitionForm::Function => Ok(noted_fault(notes, number)),
        DefinitionForm::Constant => constant_fault(alloc, table, notes, number),
    }
}

/// What is wrong with the levels in the body of the definition of that index, which has that form.
fn body_fault(
    alloc: Global,
    table: &Table,
    notes: &[Note],
    form: DefinitionForm,
    index: usize,
) -> Result<Option<LevelFault>, NoMemory>
    requires noted { AreNotes table.now.operators notes.now }
    requires all { length notes.now ≡ length table.now.operators }
    requires ordered { UsesSmaller table.now.operators }
    ensures { let wrong : Fault → Type 0 = IsBodyFault (numbers_of table.now.numbers.items) table.now.operators form index in IfOk result (λ o. MatchOption o ((f : Fault) → ¬ wrong f) (IsFirst wrong)) }
{
    match number_at(table, index) {
        Some(number) => numbered_fault(alloc, table, notes, form, number),
        None => Ok(None),
    }
}

/// What is wrong with the levels of the assumption of that index.
fn assumed_fault(
    alloc: Global,
    table: &Table,
    notes: &[Note],
    assumes: &Terms,
    index: usize,
) -> Result<Option<LevelFault>, NoMemory>
    requires noted { AreNotes table.now.operators notes.now }
    requires all { length notes.now ≡ length table.now.operators }
    requires below { AreBelow (length table.now.operators) assumes.now }
    ensures { IfOk result (λ o. MatchOption o ((f : Fault) → ¬ IsAssumedFault table.now.operators (terms_list assumes.now) index f) (IsFirst (IsAssumedFault table.now.operators (terms_list assumes.now) index))) }
{
    match assumes.get(index) {
        Some(term) => assumption_fault(alloc, table.operators.items(), notes, term),
        None => Ok(None),
    }
}

/// What is wrong with the levels of a unit, which has so many definitions and assumptions before it.
fn unit_fault(
    alloc: Global,
    table: &Table,
    notes: &[Note],
    assumes: &Terms,
    definitions: usize,
    assumptions: usize,
    unit: &Unit,
) -> Result<Option<LevelFault>, NoMemory>
    requires noted { AreNotes table.now.operators notes.now }
    requires all { length notes.now ≡ length table.now.operators }
    requires below { AreBelow (length table.now.operators) assumes.now }
    requires ordered { UsesSmaller table.now.operators }
    ensures { let wrong : Fault → Type 0 = IsUnitFault (numbers_of table.now.numbers.items) table.now.operators (terms_list assumes.now) definitions assumptions unit.now in IfOk result (λ o. MatchOption o ((f : Fault) → ¬ wrong f) (IsFirst wrong)) }
{
    match unit {
        Unit::Define(definition) => body_fault(alloc, table, notes, definition.form, definitions),
        Unit::Assume(_) => assumed_fault(alloc, table, notes, assumes, assumptions),
        Unit::Variables(_) => Ok(None),
        Unit::Constants(_) => Ok(None),
        Unit::Recursive(_) => Ok(None),
        Unit::Instance(_) => Ok(None),
        Unit::Passed => Ok(None),
    }
}

/// The first thing that is wrong with the levels of a program, in the order of its units.
pub(crate) fn first_level_fault(
    alloc: Global,
    program: &Program,
    table: &Table,
    notes: &[Note],
    assumes: &Terms,
) -> Result<Option<LevelFault>, NoMemory>
    requires noted { AreNotes table.now.operators notes.now }
    requires all { length notes.now ≡ length table.now.operators }
    requires below { AreBelow (length table.now.operators) assumes.now }
    requires ordered { UsesSmaller table.now.operators }
    ensures { IfOk result (λ o. MatchOption o (HasFineLevels program.now (numbers_of table.now.numbers.items) table.now.operators (terms_list assumes.now)) (IsFirstLevelFault program.now (numbers_of table.now.numbers.items) table.now.operators (terms_list assumes.now))) }
{
    let mut definitions = 0;
    let mut assumptions = 0;
    for unit in program.units.items() {
        let fault = unit_fault(alloc, table, notes, assumes, definitions, assumptions, unit)?;
        match fault {
            Some(first) => return Ok(Some(first)),
            None => {
                definitions += definitions_of(unit);
                assumptions += assumptions_of(unit);
            }
        }
    }
    Ok(None)
}

/// How many definitions a unit is.
fn definitions_of(unit: &Unit) -> usize
    ensures { result ≡ length (definitions_in (unit.now ∷ [])) }
{
    match unit {
        Unit::Define(_) => 1,
        Unit::Variables(_) => 0,
        Unit::Constants(_) => 0,
        Unit::Assume(_) => 0,
        Unit::Recursive(_) => 0,
        Unit::Instance(_) => 0,
        Unit::Passed => 0,
    }
}

/// How many assumptions a unit is.
fn assumptions_of(unit: &Unit) -> usize
    ensures { result ≡ length (assumptions_in (unit.now ∷ [])) }
{
    match unit {
        Unit::Assume(_) => 1,
        Unit::Variables(_) => 0,
        Unit::Constants(_) => 0,
        Unit::Define(_) => 0,
        Unit::Recursive(_) => 0,
        Unit::Instance(_) => 0,
        Unit::Passed => 0,
    }
}
