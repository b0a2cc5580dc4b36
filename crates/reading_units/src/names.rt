//! Names and lists of them.

ghost use Rattle.std.specs.Prelude.{◌≡◌, ◌<◌, length, drop, IfOk, IfErr};
ghost use Rattle.reading_trees.specs.Grammar.{NamesText};
ghost use Rattle.reading_trees.specs.Modules.{LaidEndsOnce, DeclaredText, DeclaredNamesText};
ghost use Rattle.reading_units.specs.Parts.{Part};
ghost use Rattle.reading_units.specs.Reads.{Leads, Misses, RefusedIn, NeverDeep};
ghost use Rattle.reading_units.specs.Refusals.{Begins};
ghost use Rattle.reading_units.specs.Rests.{◌▹◌, Marked, Listed, Tail};
ghost use Rattle.reading_units.specs.declared.marks.Mark.TheVariants as marks;

use crate::marks::{Mark, mark_at, token_at};
use base_core::Names;
use reading_expressions::{ParseFault, fault_at};
use reading_tokens::Kind;
use reading_trees::{Declared, DeclaredNames, Laid};
use std::alloc::Global;

/// Reads a name.
pub fn declared(laid: &[Laid], from: usize) -> Result<(Declared, usize), ParseFault>
    requires ends { LaidEndsOnce laid.now }
    requires inside { from < length laid.now }
    ensures part { IfOk result (λ r. Part (DeclaredText r.0) laid.now from r.1) }
    ensures token { IfOk result (λ r. Marked marks.Name (drop from laid.now) (drop r.1 laid.now)) }
    ensures refused { IfErr result (λ e. Misses marks.Name (drop from laid.now) e) }
{
    match token_at(laid, from) {
        Some(token) => match &token.kind {
            Kind::Name(name) => {
                let name = name.copy()?;
                Ok((
                    Declared {
                        name,
                        at: token.place,
                    },
                    from + 1,
                ))
            }
            _ => Err(fault_at(laid, from)),
        },
        None => Err(fault_at(laid, from)),
    }
}

/// Reads one or more names with commas between them, and keeps their places.
pub fn declared_names(
    alloc: Global,
    laid: &[Laid],
    from: usize,
) -> Result<(DeclaredNames, usize), ParseFault>
    requires ends { LaidEndsOnce laid.now }
    requires inside { from < length laid.now }
    ensures part { IfOk result (λ r. Part (DeclaredNamesText r.0) laid.now from r.1) }
    ensures far { IfOk result (λ r. Leads (Listed ▹ Tail) Tail (drop from laid.now) (drop r.1 laid.now)) }
    ensures refused { IfErr result (λ e. RefusedIn (Listed ▹ Tail) NeverDeep (Begins Listed) (drop from laid.now) e) }
{
    let mut names = DeclaredNames::new(alloc);
    let (first, mut next) = declared(laid, from)?;
    names.push(first)?;
    while mark_at(laid, next) == Some(Mark::Comma) {
        let (name, behind) = declared(laid, next + 1)?;
        names.push(name)?;
        next = behind;
    }
    Ok((names, next))
}

/// Reads one or more names with commas between them.
pub fn names(alloc: Global, laid: &[Laid], from: usize) -> Result<(Names, usize), ParseFault>
    requires ends { LaidEndsOnce laid.now }
    requires inside { from < length laid.now }
    ensures part { IfOk result (λ r. Part (NamesText r.0) laid.now from r.1) }
    ensures far { IfOk result (λ r. Leads (Listed ▹ Tail) Tail (drop from laid.now) (drop r.1 laid.now)) }
    ensures refused { IfErr result (λ e. RefusedIn (Listed ▹ Tail) NeverDeep (Begins Listed) (drop from laid.now) e) }
{
    let mut names = Names::new(alloc);
    let (first, mut next) = declared(laid, from)?;
    names.push(first.name)?;
    while mark_at(laid, next) == Some(Mark::Comma) {
        let (name, behind) = declared(laid, next + 1)?;
        names.push(name.name)?;
        next = behind;
    }
    Ok((names, next))
}
