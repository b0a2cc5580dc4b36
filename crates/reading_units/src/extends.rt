//! The modules that a module extends.

ghost use Rattle.std.specs.Prelude.{◌≡◌, ◌<◌, ◌≤◌, length, drop, IfOk, IfErr};
ghost use Rattle.reading_trees.specs.Modules.{LaidEndsOnce, ExtendsText};
ghost use Rattle.reading_units.specs.Reads.{Leads, RefusedIn, NeverDeep};
ghost use Rattle.reading_units.specs.Refusals.{Begins};
ghost use Rattle.reading_units.specs.Rests.{◌▹◌, Extended, Tail};

use crate::marks::{Mark, mark_at};
use crate::names::names;
use base_core::Names;
use reading_expressions::ParseFault;
use reading_trees::Laid;
use std::alloc::Global;

/// Reads EXTENDS and names, or nothing where another token stands.
pub fn extends(alloc: Global, laid: &[Laid], from: usize) -> Result<(Names, usize), ParseFault>
    requires ends { LaidEndsOnce laid.now }
    requires inside { from < length laid.now }
    ensures spelled { IfOk result (λ r. ExtendsText r.0 (drop from laid.now) (drop r.1 laid.now)) }
    ensures ahead { IfOk result (λ r. from ≤ r.1) }
    ensures within { IfOk result (λ r. r.1 < length laid.now) }
    ensures far { IfOk result (λ r. Leads (Extended ▹ Tail) Tail (drop from laid.now) (drop r.1 laid.now)) }
    ensures refused { IfErr result (λ e. RefusedIn (Extended ▹ Tail) NeverDeep (Begins Extended) (drop from laid.now) e) }
{
    if mark_at(laid, from) == Some(Mark::Extends) {
        let (names, next) = names(alloc, laid, from + 1)?;
        return Ok((names, next));
    }
    Ok((Names::new(alloc), from))
}
