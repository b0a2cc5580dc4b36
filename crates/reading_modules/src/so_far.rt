//! What was read so far.

ghost use Rattle.std.specs.Prelude.{◌≡◌, OnOk, IfOk, IfErr};
ghost use Rattle.reading_modules.specs.Flattened.{begun_of_instance, joined, nothing_read, program_of, with_name, with_standard};

use crate::fault::Stop;
use crate::names::is_among;
use crate::notes::Notes;
use crate::path::files_of;
use base_core::{Names, NoMemory, Text};
use reading_trees::{Instances, Program, Units};
use std::alloc::Global;

/// A program so far: whether it is that of an instance; the names of the modules whose files were sought, in that order, also for other programs;
/// the modules of this program; the units of those whose reading is ended, in the order of its end, and their notes in that order too; the
/// standard modules that were met, each once; and the instances among the units.
#[derive(Drop)]
pub struct Gathered<N> {
    pub of_instance: bool,
    pub modules: Names,
    pub own: Names,
    pub units: Units,
    pub standard: Names,
    pub notes: Notes<N>,
    pub instances: Instances,
}

impl<N: Drop> Gathered<N> {
    /// Nothing.
    pub fn new(alloc: Global) -> Gathered<N>
        ensures { result ≡ nothing_read }
    {
        Gathered {
            of_instance: false,
            modules: Names::new(alloc),
            own: Names::new(alloc),
            units: Units::new(alloc),
            standard: Names::new(alloc),
            notes: Notes::new(alloc),
            instances: Instances::new(alloc),
        }
    }

    /// The program of an instance, with nothing but the names of modules whose files were sought.
    pub fn of_instance(alloc: Global, modules: Names) -> Gathered<N>
        ensures { result ≡ begun_of_instance modules }
    {
        Gathered {
            of_instance: true,
            modules,
            own: Names::new(alloc),
            units: Units::new(alloc),
            standard: Names::new(alloc),
            notes: Notes::new(alloc),
            instances: Instances::new(alloc),
        }
    }
}

/// Lists a name once.
pub fn list_name(names: &mut Names, name: &Text) -> Result<(), NoMemory>
    ensures { OnOk result (names.new ≡ with_name names.old name.now) }
{
    if !is_among(name, names.items()) {
        names.push(name.copy()?)?;
    }
    Ok(())
}

/// Lists names, each once.
pub fn list_names(names: &mut Names, more: &[Text]) -> Result<(), NoMemory>
    ensures { OnOk result (names.new ≡ joined names.old more.now) }
{
    for name in more {
        list_name(names, name)?;
    }
    Ok(())
}

/// Lists a standard module, once.
pub fn list_standard<N: Drop>(so: &mut Gathered<N>, name: &Text) -> Result<(), Stop>
    ensures listed { OnOk result (so.new ≡ with_standard so.old name.now) }
    ensures no_refusal { IfErr result (λ e. e ≡ Stop.NoMemory) }
{
    list_name(&mut so.standard, name)?;
    Ok(())
}

/// The program of the module of an instance.
pub fn program_of<N: Drop>(
    alloc: Global,
    folder: &str,
    so: Gathered<N>,
) -> Result<Program, NoMemory>
    ensures { IfOk result (λ p. p ≡ program_of folder.now so) }
{
    let files = files_of(alloc, folder, &so.own)?;
    Ok(Program {
        files,
        units: so.units,
        standard: so.standard,
    })
}
