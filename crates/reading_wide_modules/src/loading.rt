//! A program whose modules are read so.

ghost use Rattle.std.specs.Prelude.{◌≡◌, ◌≤◌, ℕ, List, IfErr, OnOk};
ghost use Rattle.reading_modules.specs.Loads.{IsToldOf, LoadsBy};
ghost use Rattle.reading_modules.specs.Paths.{IsPath};
ghost use Rattle.reading_wide_modules.specs.Wide.{reading_by};

use crate::reading::read_wide;
use crate::unread::Unread;
use base_core::Files;
use reading_modules::{LoadFault, Loaded, ModuleReader, SpelledModule, Stop, load_by, spelled};
use std::alloc::Global;

/// Reads a text as a whole, or, with the word `--wide`, where it spells no module, in pieces, and notes those that are not read.
#[derive(Drop)]
pub struct TextReader {
    pub wide: bool,
}

impl ModuleReader for TextReader {
    type Note = Unread;

    ghost reading = { λ r. reading_by r.wide };

    fn read(
        &self,
        alloc: Global,
        number: u32,
        bytes: &[u8],
    ) -> Result<SpelledModule<Unread>, Stop> {
        if self.wide {
            return read_wide(alloc, number, bytes);
        }
        let module = spelled(alloc, number, bytes)?;
        Ok(SpelledModule {
            module,
            notes: Vec::new(alloc),
        })
    }

    fn refuses_nested(&self) -> bool {
        if self.wide {
            return false;
        }
        true
    }
}

/// Reads the module of that path and those that it extends, with the word `--wide` or without it. What is not read of them is noted.
pub fn load_modules<F: Files>(
    alloc: Global,
    wide: bool,
    files: &mut F,
    path: &str,
) -> Result<Loaded<Unread>, LoadFault>
    requires { (folder : List ℕ) × (name : List ℕ) × IsPath path.now folder name }
    ensures loads { LoadsBy (reading_by wide) (F.holds files.old) (F.faults files.old) (F.faults files.new) path.now result }
    ensures quiet { OnOk result (F.failures files.new ≡ F.failures files.old) }
    ensures told { IfErr result (IsToldOf (F.failures files.old) (F.failures files.new)) }
    ensures same { F.holds files.new ≡ F.holds files.old }
    ensures later { F.faults files.old ≤ F.faults files.new }
{
    load_by(alloc, files, &TextReader { wide }, path)
}
