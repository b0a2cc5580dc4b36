//! What reads the text of a module.

ghost use Rattle.std.specs.Prelude.{◌≡◌, ◌≤◌, length, IfOk, IfErr};
ghost use Rattle.reading_modules.specs.Readings.{Reading};
ghost use Rattle.reading_modules.specs.Refusals.{module_limit, StopsBy};

use crate::fault::Stop;
use crate::strict::spelled;
use reading_trees::Module;
use std::alloc::Global;

/// A module that a text spells, with notes that tell of it beside its units.
#[derive(Drop)]
pub struct SpelledModule<N> {
    pub module: Module,
    pub notes: Vec<N>,
}

/// What reads the text of a module, in one way or another.
pub trait ModuleReader {
    /// What is told of a module beside its units, as a unit that was passed over.
    type Note: Drop;

    ghost reading: { Self → Reading Self.Note };

    /// The module that the text of a file spells. The file has the number.
    fn read(
        &self,
        alloc: Global,
        number: u32,
        bytes: &[u8],
    ) -> Result<SpelledModule<Self::Note>, Stop>
        requires { length bytes.now ≤ module_limit }
        ensures spelled { IfOk result (λ s. (reading self.now).Spells number bytes.now s.module s.notes.items) }
        ensures refused { IfErr result (StopsBy ((reading self.now).Misspells number bytes.now)) };

    /// Whether a module that is read for an instance is refused where it has an instance itself. Else that is passed over.
    fn refuses_nested(&self) -> bool
        ensures { result ≡ (reading self.now).refuses_nested };
}

/// Reads a text as a whole: where one unit of it is none, it is refused. It has no notes.
pub struct StrictReader;

impl ModuleReader for StrictReader {
    ghost use Rattle.reading_modules.specs.Refusals.{strict};

    type Note = ();

    ghost reading = { λ _. strict };

    fn read(&self, alloc: Global, number: u32, bytes: &[u8]) -> Result<SpelledModule<()>, Stop> {
        let module = spelled(alloc, number, bytes)?;
        Ok(SpelledModule {
            module,
            notes: Vec::new(alloc),
        })
    }

    fn refuses_nested(&self) -> bool {
        true
    }
}
