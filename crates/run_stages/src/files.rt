ghost use Rattle.std.specs.Prelude.{◌≡◌, ◌++◌, ◌∷◌, [], IfOk};
ghost use Rattle.run_reading_defs.specs.Refusals.{all_files};

use base_core::{Names, NoMemory, Text};
use reading_trees::{Config, Program};
use std::alloc::Global;

/// The names of the files that places speak of: those of the modules, and behind them that of the configuration.
pub fn all_files(alloc: Global, program: &Program, config: &Config) -> Result<Names, NoMemory>
    ensures { IfOk result (λ all. all ≡ all_files program.now config.now) }
{
    with_file(alloc, &program.files, &config.file)
}

/// The names of files, and one more.
pub(crate) fn with_file(alloc: Global, files: &Names, name: &Text) -> Result<Names, NoMemory>
    ensures { IfOk result (λ all. all ≡ files.now ++ name.now ∷ []) }
{
    let mut all = copy_names(alloc, files)?;
    all.push(name.copy()?)?;
    Ok(all)
}

/// A copy of names.
pub(crate) fn copy_names(alloc: Global, names: &Names) -> Result<Names, NoMemory>
    ensures { IfOk result (λ all. all ≡ names.now) }
{
    let mut all = Names::new(alloc);
    for name in names.items() {
        all.push(name.copy()?)?;
    }
    Ok(all)
}
