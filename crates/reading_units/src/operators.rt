//! Operators that are declared before they are defined, and lists of them.

ghost use Rattle.std.specs.Prelude.{◌≡◌, ◌<◌, ◌≤◌, length, drop, IfOk, IfErr};
ghost use Rattle.reading_trees.specs.Modules.{LaidEndsOnce, PlacesText, MaybePlaces, DeclaredOperatorText, DeclaredOperatorsText};
ghost use Rattle.reading_units.specs.Parts.{Part};
ghost use Rattle.reading_units.specs.Reads.{Leads, RefusedIn, NeverDeep};
ghost use Rattle.reading_units.specs.Refusals.{Begins};
ghost use Rattle.reading_units.specs.Rests.{◌▹◌, Places, Parameters, OneOperator, Operators, OperatorsLeft, Closing, Tail};

use crate::marks::{Mark, close_parenthesis, mark_at, underscore};
use crate::names::declared;
use reading_expressions::ParseFault;
use reading_trees::{DeclaredOperator, DeclaredOperators, Laid};
use std::alloc::Global;

/// Reads one or more `_` with commas between them, and tells how many there are.
fn places(laid: &[Laid], from: usize) -> Result<(usize, usize), ParseFault>
    requires ends { LaidEndsOnce laid.now }
    requires inside { from < length laid.now }
    ensures part { IfOk result (λ r. Part (PlacesText r.0) laid.now from r.1) }
    ensures far { IfOk result (λ r. Leads (Places ▹ Closing) Closing (drop from laid.now) (drop r.1 laid.now)) }
    ensures refused { IfErr result (λ e. RefusedIn (Places ▹ Closing) NeverDeep (Begins Places) (drop from laid.now) e) }
{
    let mut next = underscore(laid, from)?;
    let mut count = 1;
    while mark_at(laid, next) == Some(Mark::Comma) {
        let behind = underscore(laid, next + 1)?;
        count += 1;
        next = behind;
    }
    Ok((count, next))
}

/// Reads the parameters of a declared operator, `_` for each, and tells how many there are: none where no parenthesis opens.
fn parameters(laid: &[Laid], from: usize) -> Result<(usize, usize), ParseFault>
    requires ends { LaidEndsOnce laid.now }
    requires inside { from < length laid.now }
    ensures spelled { IfOk result (λ r. MaybePlaces r.0 (drop from laid.now) (drop r.1 laid.now)) }
    ensures ahead { IfOk result (λ r. from ≤ r.1) }
    ensures within { IfOk result (λ r. r.1 < length laid.now) }
    ensures far { IfOk result (λ r. Leads (Parameters ▹ OperatorsLeft) OperatorsLeft (drop from laid.now) (drop r.1 laid.now)) }
    ensures refused { IfErr result (λ e. RefusedIn (Parameters ▹ OperatorsLeft) NeverDeep (Begins Parameters) (drop from laid.now) e) }
{
    if mark_at(laid, from) == Some(Mark::OpenParenthesis) {
        let (count, next) = places(laid, from + 1)?;
        let behind = close_parenthesis(laid, next)?;
        return Ok((count, behind));
    }
    Ok((0, from))
}

/// Reads a declared operator.
fn operator(laid: &[Laid], from: usize) -> Result<(DeclaredOperator, usize), ParseFault>
    requires ends { LaidEndsOnce laid.now }
    requires inside { from < length laid.now }
    ensures part { IfOk result (λ r. Part (DeclaredOperatorText r.0) laid.now from r.1) }
    ensures far { IfOk result (λ r. Leads (OneOperator ▹ OperatorsLeft) OperatorsLeft (drop from laid.now) (drop r.1 laid.now)) }
    ensures refused { IfErr result (λ e. RefusedIn (OneOperator ▹ OperatorsLeft) NeverDeep (Begins OneOperator) (drop from laid.now) e) }
{
    let (name, next) = declared(laid, from)?;
    let (count, behind) = parameters(laid, next)?;
    Ok((
        DeclaredOperator {
            name: name.name,
            at: name.at,
            parameters: count,
        },
        behind,
    ))
}

/// Reads one or more declared operators with commas between them.
pub fn declared_operators(
    alloc: Global,
    laid: &[Laid],
    from: usize,
) -> Result<(DeclaredOperators, usize), ParseFault>
    requires ends { LaidEndsOnce laid.now }
    requires inside { from < length laid.now }
    ensures part { IfOk result (λ r. Part (DeclaredOperatorsText r.0) laid.now from r.1) }
    ensures far { IfOk result (λ r. Leads (Operators ▹ Tail) Tail (drop from laid.now) (drop r.1 laid.now)) }
    ensures refused { IfErr result (λ e. RefusedIn (Operators ▹ Tail) NeverDeep (Begins Operators) (drop from laid.now) e) }
{
    let mut operators = DeclaredOperators::new(alloc);
    let (first, mut next) = operator(laid, from)?;
    operators.push(first)?;
    while mark_at(laid, next) == Some(Mark::Comma) {
        let (one, behind) = operator(laid, next + 1)?;
        operators.push(one)?;
        next = behind;
    }
    Ok((operators, next))
}
