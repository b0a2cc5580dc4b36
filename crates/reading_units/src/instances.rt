//! Instances of other modules, and what they give names of those.

ghost use Rattle.std.specs.Prelude.{◌≡◌, ◌<◌, ◌≤◌, ◌++◌, ◌∷◌, [], IfOk, IfErr, IfNone, IfSome, drop, length};
ghost use Rattle.reading_trees.specs.Fits.{Fits};
ghost use Rattle.reading_trees.specs.Grammar.{◌⨟◌, some_token};
ghost use Rattle.reading_trees.specs.Modules.{LaidEndsOnce, WithText, WithsText, WithsFit, UnitText, UnitFits};
ghost use Rattle.reading_expressions.specs.Nesting.{Shallow};
ghost use Rattle.reading_tokens.specs.declared.token.Foreign.TheVariants as foreign;
ghost use Rattle.reading_tokens.specs.declared.token.Kind.TheVariants as kinds;
ghost use Rattle.reading_units.specs.Parts.{Part};
ghost use Rattle.reading_units.specs.Reads.{DeepUnit, Leads, RefusedIn, ShallowGiven, TellsNew, WholeWiths};
ghost use Rattle.reading_units.specs.Refusals.{BeginsThen, ShallowUnit, ShallowWholeUnit, ShallowWiths, SomeGiving, SomeGivings, TooNestedBehind};
ghost use Rattle.reading_units.specs.Rests.{GivenLeft, InstanceBegins, MoreLeft, NamedLeft, NoInstance, Tail, names_of};

use crate::marks::{Mark, arrow, mark_at};
use crate::names::declared;
use base_core::Text;
use reading_expressions::{ParseFault, expression, fault_at};
use reading_machine::{laws_of_extents, laws_of_refusals};
use reading_trees::{Laid, Made, Unit, With, Withs};
use std::alloc::Global;

/// Whether the name is none of those that were given.
fn is_new(withs: &[With], name: &Text) -> bool
    ensures { TellsNew result (names_of withs.now) name.now }
{
    for with in withs {
        if with.name == *name {
            return false;
        }
    }
    true
}

/// Reads a name that is none of those given before, `<-` and an expression.
fn given(
    alloc: Global,
    laid: &[Laid],
    from: usize,
    before: &Withs,
) -> Result<(With, usize), ParseFault>
    requires ends { LaidEndsOnce laid.now }
    requires inside { from < length laid.now }
    ensures part { IfOk result (λ r. Part (WithText (names_of before.now) r.0) laid.now from r.1) }
    ensures fits { IfOk result (λ r. Fits r.0.by) }
    ensures far { IfOk result (λ r. Leads (GivenLeft (names_of before.now)) (MoreLeft (names_of before.now ++ r.0.name ∷ [])) (drop from laid.now) (drop r.1 laid.now)) }
    ensures shallow { IfOk result (λ r. ShallowGiven (names_of before.now) r.0.name (drop from laid.now) (drop r.1 laid.now)) }
    ensures refused { IfErr result (λ e. RefusedIn (GivenLeft (names_of before.now)) (TooNestedBehind (SomeGiving (names_of before.now)) (drop from laid.now)) (BeginsThen (SomeGiving (names_of before.now)) Shallow) (drop from laid.now) e) }
{
    laws_of_extents();
    laws_of_refusals();
    let (name, next) = declared(laid, from)?;
    if !is_new(before.items(), &name.name) {
        return Err(fault_at(laid, from));
    }
    let start = arrow(laid, next)?;
    let (by, behind) = expression(alloc, laid, start)?;
    Ok((
        With {
            name: name.name,
            at: name.at,
            by,
        },
        behind,
    ))
}

/// Reads WITH and what it gives, or nothing where another token stands.
fn withs(alloc: Global, laid: &[Laid], from: usize) -> Result<(Withs, usize), ParseFault>
    requires ends { LaidEndsOnce laid.now }
    requires inside { from < length laid.now }
    ensures spelled { IfOk result (λ r. WithsText r.0 (drop from laid.now) (drop r.1 laid.now)) }
    ensures ahead { IfOk result (λ r. from ≤ r.1) }
    ensures within { IfOk result (λ r. r.1 < length laid.now) }
    ensures fits { IfOk result (λ r. WithsFit r.0) }
    ensures far { IfOk result (λ r. Leads NamedLeft Tail (drop from laid.now) (drop r.1 laid.now)) }
    ensures shallow { IfOk result (λ r. WholeWiths (drop from laid.now) (drop r.1 laid.now)) }
    ensures refused { IfErr result (λ e. RefusedIn NamedLeft (TooNestedBehind (some_token (kinds.Foreign foreign.With) ⨟ SomeGivings) (drop from laid.now)) (BeginsThen (some_token (kinds.Foreign foreign.With)) ShallowWiths) (drop from laid.now) e) }
{
    let mut withs = Withs::new(alloc);
    if mark_at(laid, from) != Some(Mark::With) {
        return Ok((withs, from));
    }
    let (first, mut next) = given(alloc, laid, from + 1, &withs)?;
    withs.push(first)?;
    while mark_at(laid, next) == Some(Mark::Comma) {
        let (more, behind) = given(alloc, laid, next + 1, &withs)?;
        withs.push(more)?;
        next = behind;
    }
    Ok((withs, next))
}

/// The index behind a name, `==` and INSTANCE, where they stand there.
pub fn behind_instance(laid: &[Laid], from: usize) -> Option<usize>
    requires ends { LaidEndsOnce laid.now }
    requires inside { from < length laid.now }
    ensures begins { IfSome result (λ to. Part InstanceBegins laid.now from to) }
    ensures apart { IfNone result (NoInstance (drop from laid.now)) }
{
    if mark_at(laid, from) != Some(Mark::Name) {
        return None;
    }
    if mark_at(laid, from + 1) != Some(Mark::Defined) {
        return None;
    }
    if mark_at(laid, from + 2) != Some(Mark::Instance) {
        return None;
    }
    Some(from + 3)
}

/// Reads an instance, of which INSTANCE stands before the second index.
pub fn instance(
    alloc: Global,
    laid: &[Laid],
    from: usize,
    behind: usize,
) -> Result<(Unit, usize), ParseFault>
    requires ends { LaidEndsOnce laid.now }
    requires inside { from < length laid.now }
    requires begins { Part InstanceBegins laid.now from behind }
    ensures part { IfOk result (λ r. Part (UnitText r.0) laid.now from r.1) }
    ensures fits { IfOk result (λ r. UnitFits r.0) }
    ensures far { IfOk result (λ r. Leads Tail Tail (drop from laid.now) (drop r.1 laid.now)) }
    ensures shallow { IfOk result (λ r. ShallowWholeUnit (drop from laid.now) (drop r.1 laid.now)) }
    ensures refused { IfErr result (λ e. RefusedIn Tail (DeepUnit (drop from laid.now)) ShallowUnit (drop from laid.now) e) }
{
    laws_of_extents();
    laws_of_refusals();
    let (own, _) = declared(laid, from)?;
    let (of_module, next) = declared(laid, behind)?;
    let (withs, end) = withs(alloc, laid, next)?;
    Ok((
        Unit::Instance(Made {
            name: own.name,
            at: own.at,
            module_name: of_module.name,
            withs,
        }),
        end,
    ))
}
