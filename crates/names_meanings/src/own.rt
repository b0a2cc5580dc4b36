//! Definitions of a LET that use themselves.
//!
//! Only a function may, `N[B] == E`, that applies its name and does nothing else with it, and whose level is 0. A place is kept for it in the table
//! before its body is read, so that the body sees it.

ghost use Rattle.std.specs.Prelude.{◌≡◌, ℕ, List, [], None, true, IfOk, IfErr, OnOk, if◌then◌else◌};
ghost use Rattle.names_scopes.specs.Mentions.{mentions};
ghost use Rattle.names_terms.specs.declared.operator.Own.TheVariants.{Apart, Function};
ghost use Rattle.names_least_levels.specs.declared.told.Told.TheVariants.{Above, Constant};
ghost use Rattle.names_least_levels.specs.Levels.{names_rise};
ghost use Rattle.names_least_levels.specs.Rising.{rises, with_own, without};
ghost use Rattle.names_meanings.specs.Around.{takes};
ghost use Rattle.names_meanings.specs.Complaints.{told, may_use_itself};
ghost use Rattle.names_meanings.specs.Outcomes.{Complains};
ghost use Rattle.names_meanings.specs.Owned.{own_in, own_complaint, IsBegun, IsKept, IsEnded};

use crate::fault::NameFault;
use crate::walk::Walk;
use base_core::NoMemory;
use names_found_levels::local_rises;
use names_free::free_names;
use names_least_levels::{NameLevel, Told};
use names_scopes::{applies, is_one_of, mentions};
use names_terms::{DefId, Term};
use reading_trees::{Definition, DefinitionForm, Expr};
use std::alloc::Global;

/// Whether a definition of a LET is a function that uses itself.
fn is_own_function(definition: &Definition) -> bool
    ensures { own_in definition.now ≡ (if result then Function else Apart) }
{
    match definition.form {
        DefinitionForm::Operator | DefinitionForm::Constant => false,
        DefinitionForm::Function => {
            if is_one_of(&definition.name, definition.params.items()) {
                return false;
            }
            mentions(&definition.name, &definition.body)
        }
    }
}

/// What is told of a name.
fn level_told(above: bool) -> Told
    ensures { result ≡ (if above then Above else Constant) }
{
    if above {
        return Told::Above;
    }
    Told::Constant
}

/// The names that a tree mentions, each with whether it is above level 0 here.
fn told_names(alloc: Global, walk: &Walk<'_>, tree: &Expr) -> Result<Vec<NameLevel>, NoMemory>
    ensures { IfOk result (λ ws. (n : List ℕ) → mentions n tree.now ≡ true → names_rise ws.items [] n ≡ told (takes walk.now) n) }
{
    let free = free_names(alloc, tree)?;
    let mut names = Vec::new(alloc);
    for free_name in free.items() {
        let above = walk.is_above(free_name)?;
        let name = free_name.copy()?;
        names.push(NameLevel {
            name,
            told: level_told(above),
        })?;
    }
    Ok(names)
}

/// Whether the body of a definition of a LET is above level 0 here, where its own name has level 0.
fn rises_alone(alloc: Global, walk: &Walk<'_>, definition: &Definition) -> Result<bool, NoMemory>
    ensures { IfOk result (λ b. b ≡ rises (without (with_own (told (takes walk.now)) definition.now.name) definition.now.params) definition.now.body) }
{
    let names = told_names(alloc, walk, &definition.body)?;
    let rises = local_rises(alloc, &names, definition)?;
    Ok(rises)
}

/// Whether a definition of a LET that uses itself may: it is a function that only applies itself, and has level 0.
fn may_use_itself(alloc: Global, walk: &Walk<'_>, definition: &Definition) -> Result<bool, NoMemory>
    ensures { IfOk result (λ b. b ≡ may_use_itself (takes walk.now) definition.now.form definition.now.name definition.now.params definition.now.body) }
{
    match definition.form {
        DefinitionForm::Operator | DefinitionForm::Constant => Ok(false),
        DefinitionForm::Function => {
            if !applies(&definition.name, &definition.body) {
                return Ok(false);
            }
            let rises = rises_alone(alloc, walk, definition)?;
            Ok(!rises)
        }
    }
}

/// Refuses a definition of a LET that uses itself wrongly.
pub fn not_itself(alloc: Global, walk: &Walk<'_>, definition: &Definition) -> Result<(), NameFault>
    ensures fine { OnOk result (own_complaint (takes walk.now) definition.now ≡ None) }
    ensures refused { IfErr result (Complains (own_complaint (takes walk.now) definition.now)) }
{
    if is_one_of(&definition.name, definition.params.items()) {
        return Ok(());
    }
    if !mentions(&definition.name, &definition.body) {
        return Ok(());
    }
    if may_use_itself(alloc, walk, definition)? {
        return Ok(());
    }
    let name = definition.name.copy()?;
    Err(NameFault::Recursion(name, definition.at))
}

/// Before the body of a definition is read: keeps a place for a function that uses itself, and binds its name.
pub fn begin(
    alloc: Global,
    walk: &mut Walk<'_>,
    definition: &Definition,
) -> Result<Option<DefId>, NoMemory>
    ensures { IfOk result (IsBegun walk.old walk.new definition.now) }
{
    if is_own_function(definition) {
        let number = walk.reserve(alloc, &definition.name, definition.params.len())?;
        return Ok(Some(number));
    }
    Ok(None)
}

/// Behind the body: it comes into the place that was kept, or the definition is added; its name is bound.
pub fn end(
    alloc: Global,
    walk: &mut Walk<'_>,
    definition: &Definition,
    place: Option<DefId>,
    body: Term,
) -> Result<DefId, NoMemory>
    requires { IsKept walk.old definition.now body place }
    ensures { IfOk result (IsEnded walk.old walk.new definition.now body place) }
{
    match place {
        None => walk.define(alloc, &definition.name, definition.params.len(), body),
        Some(number) => {
            walk.settle(number, &definition.name, definition.params.len(), body)?;
            Ok(number)
        }
    }
}
