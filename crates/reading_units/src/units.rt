//! The units of a module.

ghost use Rattle.std.specs.Prelude.{◌≡◌, ◌+◌, ◌<◌, ◌≤◌, Some, length, drop, IfOk, IfErr};
ghost use Rattle.reading_trees.specs.Modules.{LaidEndsOnce, MaybeTitle, variable_word, constant_word, recursive_word, assume_word, theorem_word, UnitText, UnitsText, UnitFits, UnitsFit};
ghost use Rattle.reading_units.specs.Marks.{first_mark};
ghost use Rattle.reading_units.specs.Parts.{Part};
ghost use Rattle.reading_units.specs.Reads.{Leads, Lacks, ReadsTitle, RefusedIn, DeepUnit, DeepUnits};
ghost use Rattle.reading_units.specs.Refusals.{ShallowUnit, ShallowUnits, ShallowWholeUnit, ShallowWholeUnits};
ghost use Rattle.reading_units.specs.Rests.{Marked, NoInstance, Last, Tail};
ghost use Rattle.reading_units.specs.declared.marks.Mark.TheVariants as marks;

use crate::instances::{behind_instance, instance};
use crate::marks::{Mark, mark_at};
use crate::names::declared_names;
use crate::operators::declared_operators;
use reading_expressions::{ParseFault, definition, expression, fault_at};
use reading_machine::{laws_of_extents, laws_of_refusals};
use reading_trees::{Laid, Unit, Units};
use std::alloc::Global;

/// The index behind a name and `==`, or that at which they would begin.
fn behind_title(laid: &[Laid], from: usize) -> usize
    requires ends { LaidEndsOnce laid.now }
    requires inside { from < length laid.now }
    ensures spelled { MaybeTitle (drop from laid.now) (drop result laid.now) }
    ensures ahead { from ≤ result }
    ensures within { result < length laid.now }
    ensures told { ReadsTitle (drop from laid.now) (drop result laid.now) }
{
    if mark_at(laid, from) == Some(Mark::Name) {
        if mark_at(laid, from + 1) == Some(Mark::Defined) {
            return from + 2;
        }
        return from;
    }
    from
}

/// Reads the variables behind their word.
fn variables(alloc: Global, laid: &[Laid], from: usize) -> Result<(Unit, usize), ParseFault>
    requires ends { LaidEndsOnce laid.now }
    requires word { Part variable_word laid.now from (from + 1) }
    requires token { Marked marks.Variables (drop from laid.now) (drop (from + 1) laid.now) }
    ensures part { IfOk result (λ r. Part (UnitText r.0) laid.now from r.1) }
    ensures fits { IfOk result (λ r. UnitFits r.0) }
    ensures far { IfOk result (λ r. Leads Tail Tail (drop from laid.now) (drop r.1 laid.now)) }
    ensures shallow { IfOk result (λ r. ShallowWholeUnit (drop from laid.now) (drop r.1 laid.now)) }
    ensures refused { IfErr result (λ e. RefusedIn Tail (DeepUnit (drop from laid.now)) ShallowUnit (drop from laid.now) e) }
{
    let (names, next) = declared_names(alloc, laid, from + 1)?;
    Ok((Unit::Variables(names), next))
}

/// Reads the constants behind their word.
fn constants(alloc: Global, laid: &[Laid], from: usize) -> Result<(Unit, usize), ParseFault>
    requires ends { LaidEndsOnce laid.now }
    requires word { Part constant_word laid.now from (from + 1) }
    requires token { Marked marks.Constants (drop from laid.now) (drop (from + 1) laid.now) }
    ensures part { IfOk result (λ r. Part (UnitText r.0) laid.now from r.1) }
    ensures fits { IfOk result (λ r. UnitFits r.0) }
    ensures far { IfOk result (λ r. Leads Tail Tail (drop from laid.now) (drop r.1 laid.now)) }
    ensures shallow { IfOk result (λ r. ShallowWholeUnit (drop from laid.now) (drop r.1 laid.now)) }
    ensures refused { IfErr result (λ e. RefusedIn Tail (DeepUnit (drop from laid.now)) ShallowUnit (drop from laid.now) e) }
{
    let (names, next) = declared_names(alloc, laid, from + 1)?;
    Ok((Unit::Constants(names), next))
}

/// Reads the operators behind RECURSIVE.
fn recursive(alloc: Global, laid: &[Laid], from: usize) -> Result<(Unit, usize), ParseFault>
    requires ends { LaidEndsOnce laid.now }
    requires word { Part recursive_word laid.now from (from + 1) }
    requires token { Marked marks.Recursive (drop from laid.now) (drop (from + 1) laid.now) }
    ensures part { IfOk result (λ r. Part (UnitText r.0) laid.now from r.1) }
    ensures fits { IfOk result (λ r. UnitFits r.0) }
    ensures far { IfOk result (λ r. Leads Tail Tail (drop from laid.now) (drop r.1 laid.now)) }
    ensures shallow { IfOk result (λ r. ShallowWholeUnit (drop from laid.now) (drop r.1 laid.now)) }
    ensures refused { IfErr result (λ e. RefusedIn Tail (DeepUnit (drop from laid.now)) ShallowUnit (drop from laid.now) e) }
{
    let (operators, next) = declared_operators(alloc, laid, from + 1)?;
    Ok((Unit::Recursive(operators), next))
}

/// Reads a definition, where no instance begins.
fn defined(alloc: Global, laid: &[Laid], from: usize) -> Result<(Unit, usize), ParseFault>
    requires ends { LaidEndsOnce laid.now }
    requires inside { from < length laid.now }
    requires token { first_mark (drop from laid.now) ≡ Some marks.Name }
    requires apart { NoInstance (drop from laid.now) }
    ensures part { IfOk result (λ r. Part (UnitText r.0) laid.now from r.1) }
    ensures fits { IfOk result (λ r. UnitFits r.0) }
    ensures far { IfOk result (λ r. Leads Tail Tail (drop from laid.now) (drop r.1 laid.now)) }
    ensures shallow { IfOk result (λ r. ShallowWholeUnit (drop from laid.now) (drop r.1 laid.now)) }
    ensures refused { IfErr result (λ e. RefusedIn Tail (DeepUnit (drop from laid.now)) ShallowUnit (drop from laid.now) e) }
{
    laws_of_extents();
    laws_of_refusals();
    let (definition, next) = definition(alloc, laid, from)?;
    Ok((Unit::Define(definition), next))
}

/// Reads an instance, or else a definition.
fn named(alloc: Global, laid: &[Laid], from: usize) -> Result<(Unit, usize), ParseFault>
    requires ends { LaidEndsOnce laid.now }
    requires inside { from < length laid.now }
    requires token { first_mark (drop from laid.now) ≡ Some marks.Name }
    ensures part { IfOk result (λ r. Part (UnitText r.0) laid.now from r.1) }
    ensures fits { IfOk result (λ r. UnitFits r.0) }
    ensures far { IfOk result (λ r. Leads Tail Tail (drop from laid.now) (drop r.1 laid.now)) }
    ensures shallow { IfOk result (λ r. ShallowWholeUnit (drop from laid.now) (drop r.1 laid.now)) }
    ensures refused { IfErr result (λ e. RefusedIn Tail (DeepUnit (drop from laid.now)) ShallowUnit (drop from laid.now) e) }
{
    match behind_instance(laid, from) {
        Some(behind) => instance(alloc, laid, from, behind),
        None => defined(alloc, laid, from),
    }
}

/// Reads what is assumed, behind its word and its name, if it has one.
fn assumption(alloc: Global, laid: &[Laid], from: usize) -> Result<(Unit, usize), ParseFault>
    requires ends { LaidEndsOnce laid.now }
    requires word { Part assume_word laid.now from (from + 1) }
    requires token { Marked marks.Assume (drop from laid.now) (drop (from + 1) laid.now) }
    ensures part { IfOk result (λ r. Part (UnitText r.0) laid.now from r.1) }
    ensures fits { IfOk result (λ r. UnitFits r.0) }
    ensures far { IfOk result (λ r. Leads Tail Tail (drop from laid.now) (drop r.1 laid.now)) }
    ensures shallow { IfOk result (λ r. ShallowWholeUnit (drop from laid.now) (drop r.1 laid.now)) }
    ensures refused { IfErr result (λ e. RefusedIn Tail (DeepUnit (drop from laid.now)) ShallowUnit (drop from laid.now) e) }
{
    laws_of_extents();
    laws_of_refusals();
    let start = behind_title(laid, from + 1);
    let (assumed, next) = expression(alloc, laid, start)?;
    Ok((Unit::Assume(assumed), next))
}

/// Reads a theorem, and drops it.
fn theorem(alloc: Global, laid: &[Laid], from: usize) -> Result<(Unit, usize), ParseFault>
    requires ends { LaidEndsOnce laid.now }
    requires word { Part theorem_word laid.now from (from + 1) }
    requires token { Marked marks.Theorem (drop from laid.now) (drop (from + 1) laid.now) }
    ensures part { IfOk result (λ r. Part (UnitText r.0) laid.now from r.1) }
    ensures fits { IfOk result (λ r. UnitFits r.0) }
    ensures far { IfOk result (λ r. Leads Tail Tail (drop from laid.now) (drop r.1 laid.now)) }
    ensures shallow { IfOk result (λ r. ShallowWholeUnit (drop from laid.now) (drop r.1 laid.now)) }
    ensures refused { IfErr result (λ e. RefusedIn Tail (DeepUnit (drop from laid.now)) ShallowUnit (drop from laid.now) e) }
{
    laws_of_extents();
    laws_of_refusals();
    let start = behind_title(laid, from + 1);
    let (stated, next) = expression(alloc, laid, start)?;
    drop(stated);
    Ok((Unit::Passed, next))
}

/// Reads a unit, where no equals signs stand.
fn unit(alloc: Global, laid: &[Laid], from: usize) -> Result<(Unit, usize), ParseFault>
    requires ends { LaidEndsOnce laid.now }
    requires inside { from < length laid.now }
    requires more { Lacks marks.Equals (drop from laid.now) }
    ensures part { IfOk result (λ r. Part (UnitText r.0) laid.now from r.1) }
    ensures fits { IfOk result (λ r. UnitFits r.0) }
    ensures far { IfOk result (λ r. Leads Tail Tail (drop from laid.now) (drop r.1 laid.now)) }
    ensures shallow { IfOk result (λ r. ShallowWholeUnit (drop from laid.now) (drop r.1 laid.now)) }
    ensures refused { IfErr result (λ e. RefusedIn Tail (DeepUnit (drop from laid.now)) ShallowUnit (drop from laid.now) e) }
{
    match mark_at(laid, from) {
        Some(Mark::Variables) => variables(alloc, laid, from),
        Some(Mark::Constants) => constants(alloc, laid, from),
        Some(Mark::Recursive) => recursive(alloc, laid, from),
        Some(Mark::Name) => named(alloc, laid, from),
        Some(Mark::Assume) => assumption(alloc, laid, from),
        Some(Mark::Theorem) => theorem(alloc, laid, from),
        Some(Mark::Dashes) => Ok((Unit::Passed, from + 1)),
        Some(Mark::Equals) => Err(fault_at(laid, from)),
        Some(Mark::Comma) => Err(fault_at(laid, from)),
        Some(Mark::OpenParenthesis) => Err(fault_at(laid, from)),
        Some(Mark::CloseParenthesis) => Err(fault_at(laid, from)),
        Some(Mark::Underscore) => Err(fault_at(laid, from)),
        Some(Mark::Defined) => Err(fault_at(laid, from)),
        Some(Mark::Heading) => Err(fault_at(laid, from)),
        Some(Mark::Extends) => Err(fault_at(laid, from)),
        Some(Mark::Instance) => Err(fault_at(laid, from)),
        Some(Mark::With) => Err(fault_at(laid, from)),
        Some(Mark::Arrow) => Err(fault_at(laid, from)),
        None => Err(fault_at(laid, from)),
    }
}

/// Reads units up to the equals signs behind them.
pub fn units(alloc: Global, laid: &[Laid], from: usize) -> Result<(Units, usize), ParseFault>
    requires ends { LaidEndsOnce laid.now }
    requires inside { from < length laid.now }
    ensures spelled { IfOk result (λ r. UnitsText r.0 (drop from laid.now) (drop r.1 laid.now)) }
    ensures fits { IfOk result (λ r. UnitsFit r.0) }
    ensures within { IfOk result (λ r. r.1 < length laid.now) }
    ensures far { IfOk result (λ r. Leads Tail Last (drop from laid.now) (drop r.1 laid.now)) }
    ensures shallow { IfOk result (λ r. ShallowWholeUnits (drop from laid.now) (drop r.1 laid.now)) }
    ensures refused { IfErr result (λ e. RefusedIn Tail (DeepUnits Tail ShallowUnits (drop from laid.now)) ShallowUnits (drop from laid.now) e) }
{
    let mut units = Units::new(alloc);
    let mut next = from;
    while mark_at(laid, next) != Some(Mark::Equals) {
        let (item, behind) = unit(alloc, laid, next)?;
        units.push(item)?;
        next = behind;
    }
    Ok((units, next))
}
