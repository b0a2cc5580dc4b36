//! A program, from the files of its modules.

ghost use Rattle.std.specs.Prelude.{◌≡◌, ◌≤◌, ℕ, List, IfOk, IfErr, OnOk};
ghost use Rattle.reading_modules.specs.Paths.{IsPath};
ghost use Rattle.reading_modules.specs.Loads.{IsToldOf, Loads, LoadsBy};
ghost use Rattle.reading_modules.specs.Parts.{IsNewProgram, RefusesProgram, RefusesWith};

use crate::fault::{LoadFault, Stop};
use crate::meeting::visit;
use crate::notes::Notes;
use crate::path::{files_of, parts_of};
use crate::reader::{ModuleReader, StrictReader};
use crate::so_far::Gathered;
use crate::twice::first_repeated;
use base_core::{Files, Text};
use reading_trees::{Program, WholeProgram};
use std::alloc::Global;

/// A program, and the notes of its modules, in the order of its units.
#[derive(Drop)]
pub struct Loaded<N> {
    pub program: WholeProgram,
    pub notes: Notes<N>,
}

/// The program of modules that are read, or the refusal of a name that is declared twice.
fn program<N: Drop>(alloc: Global, folder: &str, all: Gathered<N>) -> Result<Loaded<N>, LoadFault>
    ensures program { IfOk result (λ l. IsNewProgram folder.now all l.program) }
    ensures noted { IfOk result (λ l. l.notes ≡ all.notes) }
    ensures refused { IfErr result (RefusesProgram folder.now all) }
{
    let files = files_of(alloc, folder, &all.modules)?;
    match first_repeated(alloc, &all.standard, &all.units, &all.instances)? {
        Some(why) => Err(LoadFault::Refused(files, why)),
        None => Ok(Loaded {
            program: WholeProgram {
                program: Program {
                    files,
                    units: all.units,
                    standard: all.standard,
                },
                instances: all.instances,
            },
            notes: all.notes,
        }),
    }
}

/// A refusal with the files so far.
fn refusal<N: Drop>(alloc: Global, folder: &str, so: &Gathered<N>, stop: Stop) -> LoadFault
    ensures { RefusesWith folder.now so.now.modules stop result }
{
    match stop {
        Stop::Refused(why) => match files_of(alloc, folder, &so.modules) {
            Ok(files) => LoadFault::Refused(files, why),
            Err(_) => LoadFault::NoMemory,
        },
        Stop::NoMemory => LoadFault::NoMemory,
    }
}

/// Reads the module of that path and those that it extends, directly or through others, depth first in the order of EXTENDS, each
/// once, and the text of each as the reader does. Standard modules are not read. The modules of a module's instances are read behind those that it
/// extends; each instance gets a program of its own, and no file is read twice.
///
/// The first refusal is answered: of a module while it is read, compared with its name, asked for instances where it is read for one, and followed
/// to those that it extends and instances; behind all modules of a name that is declared twice.
pub fn load_by<F: Files, R: ModuleReader>(
    alloc: Global,
    files: &mut F,
    reader: &R,
    path: &str,
) -> Result<Loaded<R::Note>, LoadFault>
    requires { (folder : List ℕ) × (name : List ℕ) × IsPath path.now folder name }
    ensures loads { LoadsBy (R.reading reader.now) (F.holds files.old) (F.faults files.old) (F.faults files.new) path.now result }
    ensures quiet { OnOk result (F.failures files.new ≡ F.failures files.old) }
    ensures told { IfErr result (IsToldOf (F.failures files.old) (F.failures files.new)) }
    ensures same { F.holds files.new ≡ F.holds files.old }
    ensures later { F.faults files.old ≤ F.faults files.new }
{
    let Some((folder, name)) = parts_of(path) else {
        unreachable!()
    };
    let name = Text::from_text(alloc, name)?;
    let mut so = Gathered::new(alloc);
    let mut above = Vec::new(alloc);
    let mut texts = Vec::new(alloc);
    match visit(
        alloc, files, reader, folder, &mut above, &mut texts, &mut so, &name,
    ) {
        Ok(()) => program(alloc, folder, so),
        Err(stop) => Err(refusal(alloc, folder, &so, stop)),
    }
}

/// The same, where the text of each module is read strictly.
pub fn load<F: Files>(alloc: Global, files: &mut F, path: &str) -> Result<WholeProgram, LoadFault>
    requires { (folder : List ℕ) × (name : List ℕ) × IsPath path.now folder name }
    ensures loads { Loads (F.holds files.old) (F.faults files.old) (F.faults files.new) path.now result }
    ensures quiet { OnOk result (F.failures files.new ≡ F.failures files.old) }
    ensures told { IfErr result (IsToldOf (F.failures files.old) (F.failures files.new)) }
    ensures same { F.holds files.new ≡ F.holds files.old }
    ensures later { F.faults files.old ≤ F.faults files.new }
{
    match load_by(alloc, files, &StrictReader, path) {
        Ok(loaded) => Ok(loaded.program),
        Err(fault) => Err(fault),
    }
}
