//! The module.

ghost use Rattle.std.specs.Prelude.{◌≡◌, ◌<◌, length, drop, IfOk, IfErr, OnOk};
ghost use Rattle.reading_trees.specs.Modules.{LaidEndsOnce, SpellsModule};
ghost use Rattle.reading_units.specs.Refusals.{IsRefusedModule, ShallowWholeModule};

use crate::extends::extends;
use crate::marks::{dashes, equals, heading, the_end};
use crate::names::declared;
use crate::units::units;
use reading_expressions::ParseFault;
use reading_trees::{Laid, Module};
use std::alloc::Global;

/// Reads a whole list of laid tokens, up to the End, as a module.
///
/// Of a module that is read each token stands inside at most 100 unfinished constructs of its unit.
/// A refusal has the place of the first laid token that can not stand where it does.
pub fn module(alloc: Global, laid: &[Laid]) -> Result<Module, ParseFault>
    requires { LaidEndsOnce laid.now }
    ensures spelled { IfOk result (λ m. SpellsModule m laid.now) }
    ensures shallow { OnOk result (ShallowWholeModule laid.now) }
    ensures refused { IfErr result (λ e. IsRefusedModule laid.now e) }
{
    let word = dashes(laid, 0)?;
    let called = heading(laid, word)?;
    let (name, behind) = declared(laid, called)?;
    let body = dashes(laid, behind)?;
    let (extends, first) = extends(alloc, laid, body)?;
    let (units, last) = units(alloc, laid, first)?;
    let end = equals(laid, last)?;
    the_end(laid, end)?;
    Ok(Module {
        name: name.name,
        at: name.at,
        extends,
        units,
    })
}
