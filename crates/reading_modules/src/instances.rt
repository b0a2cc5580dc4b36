//! Instances among units.

ghost use Rattle.std.specs.Prelude.{◌≡◌, option_copied, OnOk, IfErr};
ghost use Rattle.reading_modules.specs.Instances.{made_by, first_made};
ghost use Rattle.reading_modules.specs.Parts.{IsNested};
ghost use Rattle.reading_modules.specs.Flattened.{IsAllowed, with_instance};
ghost use Rattle.reading_modules.specs.Refusals.{StopsBy};

use crate::fault::{LoadWhy, Stop};
use crate::reader::ModuleReader;
use crate::so_far::{Gathered, list_names, program_of};
use base_core::Names;
use reading_trees::{Instance, Made, Module, Unit, Units};
use std::alloc::Global;
use std::mem::replace;

/// The instance that a unit makes, if it makes one.
pub fn made_by(unit: &Unit) -> Option<&Made>
    ensures { option_copied result ≡ made_by unit.now }
{
    match unit {
        Unit::Instance(made) => Some(made),
        Unit::Variables(_)
        | Unit::Constants(_)
        | Unit::Recursive(_)
        | Unit::Define(_)
        | Unit::Assume(_)
        | Unit::Passed => None,
    }
}

/// The first instance among units, if there is one.
fn first_made(units: &Units) -> Option<&Made>
    ensures { option_copied result ≡ first_made units.now }
{
    for unit in units.items() {
        if let Some(made) = made_by(unit) {
            return Some(made);
        }
    }
    None
}

/// Refuses a module that has an instance, where the program of an instance is to have it and the reader refuses that.
pub fn check_nested<R: ModuleReader>(
    reader: &R,
    so: &Gathered<R::Note>,
    module: &Module,
) -> Result<(), Stop>
    ensures allowed { OnOk result (IsAllowed (R.reading reader.now) so.now module.now) }
    ensures nested { IfErr result (StopsBy (IsNested (R.reading reader.now) so.now module.now)) }
{
    if !so.of_instance {
        return Ok(());
    }
    if !reader.refuses_nested() {
        return Ok(());
    }
    match first_made(&module.units) {
        Some(made) => Err(Stop::Refused(LoadWhy::Nested(made.name.copy()?, made.at))),
        None => Ok(()),
    }
}

/// Adds an instance, with the program of its module, whose files and standard modules join those of this program.
pub fn add_instance<N: Drop>(
    alloc: Global,
    folder: &str,
    so: &mut Gathered<N>,
    made: &Made,
    inner: Gathered<N>,
) -> Result<(), Stop>
    ensures added { OnOk result (so.new ≡ with_instance folder.now so.old made.now inner) }
    ensures no_refusal { IfErr result (λ e. e ≡ Stop.NoMemory) }
{
    list_names(&mut so.standard, inner.standard.items())?;
    let mut inner = inner;
    so.modules = replace(&mut inner.modules, Names::new(alloc));
    so.instances.push(Instance {
        name: made.name.copy()?,
        at: made.at,
        program: program_of(alloc, folder, inner)?,
    })?;
    Ok(())
}
