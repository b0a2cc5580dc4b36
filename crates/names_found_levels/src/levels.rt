//! The least levels of a program's definitions.

ghost use Rattle.std.specs.Prelude.{◌≡◌, ◌<◌, ◌↔◌, [], false, length, map, replicate, IfOk, IsTrue};
ghost use Rattle.names_found_levels.specs.OnTheWay.{Stands};
ghost use Rattle.names_least_levels.specs.Levels.{AreLeast, body_rises, each_rises, names_rise};
ghost use Rattle.names_least_levels.specs.Rising.{rises, with_own, without};

use crate::around::Around;
use crate::known::{KnownNames, known_names};
use crate::walk::raise;
use base_core::NoMemory;
use names_least_levels::NameLevel;
use reading_trees::Definition;
use std::alloc::Global;

/// Whether the body of a definition is above level 0, where the definitions have these marks.
fn body_rises(
    alloc: Global,
    names: &KnownNames,
    marks: &[bool],
    definition: &Definition,
) -> Result<bool, NoMemory>
    ensures { IfOk result (λ b. b ≡ body_rises names.now marks.now definition.now) }
{
    let mut around = Around::new(alloc);
    around.push_all(definition.params.items())?;
    let mut rises = false;
    raise(
        alloc,
        names,
        marks,
        &mut around,
        &mut rises,
        &definition.body,
    )?;
    Ok(rises)
}

/// The marks that the bodies have, where the definitions have these.
fn turned(
    alloc: Global,
    names: &KnownNames,
    marks: &[bool],
    definitions: &[&Definition],
) -> Result<Vec<bool>, NoMemory>
    ensures { IfOk result (λ bs. bs.items ≡ each_rises names.now marks.now (map (λ d. d.now) definitions.now)) }
{
    let mut found = Vec::new(alloc);
    for definition in definitions {
        let rises = body_rises(alloc, names, marks, definition)?;
        found.push(rises)?;
    }
    Ok(found)
}

/// No mark for each definition.
fn none_of(alloc: Global, definitions: &[&Definition]) -> Result<Vec<bool>, NoMemory>
    ensures { IfOk result (λ bs. bs.items ≡ replicate (length definitions.now) false) }
{
    let mut marks = Vec::new(alloc);
    for _ in 0..definitions.len() {
        marks.push(false)?;
    }
    Ok(marks)
}

/// The marks where one is what its body has.
fn raised_at(
    alloc: Global,
    names: &KnownNames,
    marks: Vec<bool>,
    index: usize,
    definitions: &[&Definition],
) -> Result<Vec<bool>, NoMemory>
    requires stands { Stands names.now (map (λ d. d.now) definitions.now) marks.items }
    requires within { index < length definitions.now }
    ensures { IfOk result (λ bs. Stands names.now (map (λ d. d.now) definitions.now) bs.items) }
{
    let mut marks = marks;
    let definition = definitions[index];
    let rises = body_rises(alloc, names, &marks, definition)?;
    marks[index] = rises;
    Ok(marks)
}

/// Marks from none on, each raised in this order. An index that none has says nothing.
fn raised_marks(
    alloc: Global,
    names: &KnownNames,
    definitions: &[&Definition],
    order: &[usize],
) -> Result<Vec<bool>, NoMemory>
    ensures { IfOk result (λ bs. Stands names.now (map (λ d. d.now) definitions.now) bs.items) }
{
    let mut marks = none_of(alloc, definitions)?;
    for index in order {
        if *index < definitions.len() {
            marks = raised_at(alloc, names, marks, *index, definitions)?;
        }
    }
    Ok(marks)
}

/// Whether two lists of marks are the same.
fn are_same(marks: &[bool], others: &[bool]) -> bool
    ensures { IsTrue result ↔ (marks.now ≡ others.now) }
{
    marks == others
}

/// The same as `levels_of`, beside names that are known.
fn levels_among(
    alloc: Global,
    names: &KnownNames,
    definitions: &[&Definition],
    order: &[usize],
) -> Result<Vec<bool>, NoMemory>
    ensures { IfOk result (λ bs. AreLeast names.now (map (λ d. d.now) definitions.now) bs.items) }
{
    let mut marks = raised_marks(alloc, names, definitions, order)?;
    loop {
        let next = turned(alloc, names, &marks, definitions)?;
        if are_same(&next, &marks) {
            return Ok(marks);
        }
        marks = next;
    }
}

/// For each definition whether it is above level 0, in the least levels of all. They are raised in this order first, which is any: where what a
/// definition uses stands before it, the first turn finds its level.
pub fn levels_of(
    alloc: Global,
    names: &[NameLevel],
    definitions: &[&Definition],
    order: &[usize],
) -> Result<Vec<bool>, NoMemory>
    ensures { IfOk result (λ bs. AreLeast names.now (map (λ d. d.now) definitions.now) bs.items) }
{
    let known = known_names(alloc, names)?;
    levels_among(alloc, &known, definitions, order)
}

/// The same as `local_rises`, beside names that are known.
fn rises_among(alloc: Global, names: &KnownNames, definition: &Definition) -> Result<bool, NoMemory>
    ensures { IfOk result (λ b. b ≡ rises (without (with_own (names_rise names.now []) definition.now.name) definition.now.params) definition.now.body) }
{
    let mut around = Around::new(alloc);
    around.push_own(&definition.name)?;
    around.push_all(definition.params.items())?;
    let mut rises = false;
    raise(alloc, names, &[], &mut around, &mut rises, &definition.body)?;
    Ok(rises)
}

/// Whether the body of a definition of a LET is above level 0, where these names are told and its own name has level 0.
pub fn local_rises(
    alloc: Global,
    names: &[NameLevel],
    definition: &Definition,
) -> Result<bool, NoMemory>
    ensures { IfOk result (λ b. b ≡ rises (without (with_own (names_rise names.now []) definition.now.name) definition.now.params) definition.now.body) }
{
    let known = known_names(alloc, names)?;
    rises_among(alloc, &known, definition)
}
